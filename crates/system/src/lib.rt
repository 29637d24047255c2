// System words of 16 bits, variants 0 and 1: read and written.
#![tactic(auto)]

ghost use Rattle.std.specs.Prelude.{◌≡◌, true};
ghost use Rattle.bits.specs.Bits.{val};
ghost use Rattle.bits.specs.Fields.{pack, fits};
ghost use Rattle.system.specs.Format.{table_format, service_format};
ghost use Rattle.system.specs.Read.{system_of};
ghost use Rattle.system.specs.Write.{written, table_values, service_values};

use refusal::Refusal;

// What a system word says of the service.
#[derive(Clone, Copy, Debug, PartialEq, Eq)]
pub enum System {
    // Variant 0: location table number, alternative frequency indicator, mode, geographical scopes.
    Table {
        ltn: u8,
        afi: u8,
        mode: u8,
        international: u8,
        national: u8,
        regional: u8,
        urban: u8,
    },
    // Variant 1: gap, service identifier, times Ta, Tw and Td.
    Service {
        gap: u8,
        sid: u8,
        ta: u8,
        tw: u8,
        td: u8,
    },
}

impl System {
    // Location table numbers and service identifiers are below these.
    pub const TABLES: u8 = 64;

    pub const SERVICES: u8 = 64;

    // Reads a system word. Reserved bits are read over; another variant is refused (2).
    #[tactic(auto, using(crate::proofs::Fields::read_fields), unfolding(crate::specs::Read::system_of, crate::specs::Read::system_by))]
    pub fn read(word: u16) -> Result<System, Refusal>
        ensures { result ≡ system_of word }
    {
        let variant = word / 0x4000 % 4;
        match variant {
            0 => Ok(System::Table {
                ltn: (word / 64 % 64) as u8,
                afi: (word / 32 % 2) as u8,
                mode: (word / 16 % 2) as u8,
                international: (word / 8 % 2) as u8,
                national: (word / 4 % 2) as u8,
                regional: (word / 2 % 2) as u8,
                urban: (word % 2) as u8,
            }),
            1 => Ok(System::Service {
                gap: (word / 0x1000 % 4) as u8,
                sid: (word / 64 % 64) as u8,
                ta: (word / 16 % 4) as u8,
                tw: (word / 4 % 4) as u8,
                td: (word % 4) as u8,
            }),
            _ => Err(Refusal::OtherKind),
        }
    }

    // Writes a system word with its reserved bits 0. A field out of its range is refused (9).
    #[tactic(auto, unfolding(crate::specs::Write::written))]
    pub fn write(self) -> Result<u16, Refusal>
        ensures { result ≡ written self }
    {
        match self {
            System::Table {
                ltn,
                afi,
                mode,
                international,
                national,
                regional,
                urban,
            } if table_fits(ltn, afi, mode, international, national, regional, urban) => {
                Ok(table_word(ltn, afi, mode, international, national, regional, urban))
            }
            System::Service {
                gap,
                sid,
                ta,
                tw,
                td,
            } if service_fits(gap, sid, ta, tw, td) => Ok(service_word(gap, sid, ta, tw, td)),
            _ => Err(Refusal::Unfit),
        }
    }
}

#[tactic(auto, unfolding(bits::specs::Fields::fits))]
fn table_fits(ltn: u8, afi: u8, mode: u8, i: u8, n: u8, r: u8, u: u8) -> bool
    ensures { result ≡ fits table_format (table_values ltn afi mode i n r u) }
{
    ltn < System::TABLES && afi < 2 && mode < 2 && i < 2 && n < 2 && r < 2 && u < 2
}

#[tactic(auto, using(crate::proofs::Fields::written_fields))]
fn table_word(ltn: u8, afi: u8, mode: u8, i: u8, n: u8, r: u8, u: u8) -> u16
    requires { fits table_format (table_values ltn afi mode i n r u) ≡ true }
    ensures { result ≡ val (pack table_format (table_values ltn afi mode i n r u)) }
{
    let high = ltn as u64 * 64 + afi as u64 * 32 + mode as u64 * 16;
    (high + i as u64 * 8 + n as u64 * 4 + r as u64 * 2 + u as u64) as u16
}

#[tactic(auto, unfolding(bits::specs::Fields::fits))]
fn service_fits(gap: u8, sid: u8, ta: u8, tw: u8, td: u8) -> bool
    ensures { result ≡ fits service_format (service_values gap sid ta tw td) }
{
    gap < 4 && sid < System::SERVICES && ta < 4 && tw < 4 && td < 4
}

#[tactic(auto, using(crate::proofs::Fields::written_fields), unfolding(bits::specs::Fields::fits))]
fn service_word(gap: u8, sid: u8, ta: u8, tw: u8, td: u8) -> u16
    requires { fits service_format (service_values gap sid ta tw td) ≡ true }
    ensures { result ≡ val (pack service_format (service_values gap sid ta tw td)) }
{
    let high = 0x4000 + gap as u64 * 0x1000 + sid as u64 * 64;
    (high + ta as u64 * 16 + tw as u64 * 4 + td as u64) as u16
}
