// A location of a location table, and the foreign location table (FLT) code that stands for a table in a location's place.
#![tactic(auto)]

ghost use Rattle.std.specs.Prelude.{◌≡◌};
ghost use Rattle.location.specs.Flt.{is_flt, foreign, flt_of};

// The country and the number of the location table, and the location's code in it.
#[derive(Clone, Copy, Debug, Default, PartialEq, Eq)]
pub struct Location {
    pub country: u8,
    pub ltn: u8,
    pub code: u16,
}

impl Location {
    // The codes from this one on begin with six ones: they are FLT codes.
    pub const FLT: u16 = 0xFC00;

    // The number of countries, and that of the tables of one.
    pub const COUNTRIES: u8 = 16;

    pub const TABLES: u8 = 64;

    // Whether a code is an FLT code.
    #[tactic(auto, using(crate::proofs::Codes::flt_from))]
    pub fn is_flt(code: u16) -> bool
        ensures { result ≡ is_flt code }
    {
        Self::FLT <= code
    }

    // The location with a code in the table that an FLT code stands for.
    #[tactic(auto, using(crate::proofs::Codes::country_is, crate::proofs::Codes::ltn_is), unfolding(crate::specs::Flt::foreign))]
    pub fn foreign(flt: u16, code: u16) -> Self
        ensures { result ≡ foreign flt code }
    {
        Location {
            country: (flt / Self::TABLES as u16 % Self::COUNTRIES as u16) as u8,
            ltn: (flt % Self::TABLES as u16) as u8,
            code,
        }
    }

    // The FLT code of its table.
    #[tactic(auto, using(crate::proofs::Codes::code_is))]
    pub fn flt(self) -> u16
        ensures { result ≡ flt_of self }
    {
        Self::FLT
            + Self::TABLES as u16 * (self.country % Self::COUNTRIES) as u16
            + (self.ltn % Self::TABLES) as u16
    }
}
