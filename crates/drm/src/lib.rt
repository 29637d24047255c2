// The data unit, which carries the Traffic Message Channel of DRM, and reading it.
#![tactic(auto)]

ghost use Rattle.std.specs.Prelude.{◌≡◌};
ghost use Rattle.drm.specs.Format.{empty_unit};

mod read;

// A data unit without its user words. The fields after Short ID are those of the header, and 0 where TMCHI is 0.
#[repr(C)]
#[derive(Clone, Copy)]
pub struct DataUnit {
    pub tmchi: u8,
    // The Short ID of the service.
    pub id: u8,
    pub services: u8,
    pub country: u8,
    pub ecc: u8,
    // Half hours, negative to the west.
    pub lto: i8,
    // How many system words there are, and these words; unused ones are 0.
    pub system: u8,
    pub first: u16,
    pub second: u16,
    pub third: u16,
}

// A unit, and how many user words it carries.
#[derive(Clone, Copy)]
pub struct Reading {
    pub unit: DataUnit,
    pub count: usize,
}

impl DataUnit {
    // The bytes of a unit, at least and at most.
    pub const SHORTEST: usize = 8;

    pub const LONGEST: usize = 128;
    // The bits of the start, of the UA data, and of the header's fields from the number of services on.
    pub const START: usize = 6;

    pub const UA_DATA: usize = 16;

    pub const HEADER: usize = 24;
    // The bit at which rfu lies, after TMCHI.
    pub const RFU_AT: usize = 1;
    // The bits at which the UA flag, after rfa, and the UA data lie. A header without UA data has its fields there.
    pub const UA_FLAG_AT: usize = DataUnit::START + 1;

    pub const UA_DATA_AT: usize = DataUnit::START + 2;
    // The bits before the system words, with a header and no UA data.
    pub const FRONT: usize = DataUnit::UA_DATA_AT + DataUnit::HEADER;
    // What one of a field counts, by the bits after it: in the start, where Short ID stands last, and in a header, where m does.
    pub const TMCHI_WEIGHT: u64 = 0x20;

    pub const SERVICES_WEIGHT: u64 = 0x10_0000;

    pub const COUNTRY_WEIGHT: u64 = 0x1_0000;

    pub const ECC_WEIGHT: u64 = 0x100;

    pub const LTO_WEIGHT: u64 = 4;
    // The most user words, the bits of each, and the most bits of padding after them.
    pub const WORDS: usize = 27;

    pub const WIDTH: usize = 37;

    pub const PADDING: usize = 7;
    // The most system words, and the bits of each.
    pub const SYSTEM_WORDS: u8 = 3;

    pub const SYSTEM_WIDTH: usize = 16;
    // The application identifier of ALERT-C.
    pub const ALERT_C: u64 = 0xCD46;
    // TMCHI, Short ID, number of services and Country are below these.
    pub const TMCHIS: u8 = 2;

    pub const IDS: u8 = 16;

    pub const SERVICES: u8 = 16;

    pub const COUNTRIES: u8 = 16;

    // No header, and Short ID 0.
    pub fn new() -> Self
        ensures { result ≡ empty_unit }
    {
        DataUnit {
            tmchi: 0,
            id: 0,
            services: 0,
            country: 0,
            ecc: 0,
            lto: 0,
            system: 0,
            first: 0,
            second: 0,
            third: 0,
        }
    }
}
