// System words of 16 bits.
ghost use Rattle.std.specs.Prelude.{◌≡◌};
ghost use Rattle.c_values.specs.Systems.{fields_of, system_by, system_from, system_or_none};

use refusal::Refusal;
use system::System;

// The variant of a system word, 0 or 1, and its fields: 0 where the variant has no such field.
#[repr(C)]
#[derive(Clone, Copy, Default, PartialEq, Eq)]
pub struct SystemFields {
    pub variant: u8,
    pub ltn: u8,
    pub afi: u8,
    pub mode: u8,
    pub international: u8,
    pub national: u8,
    pub regional: u8,
    pub urban: u8,
    pub gap: u8,
    pub sid: u8,
    pub ta: u8,
    pub tw: u8,
    pub td: u8,
}

// The fields of a system word.
impl From<System> for SystemFields {
    ghost from_gives = { λ system fields. fields ≡ fields_of system };

    #[tactic(auto, unfolding(crate::specs::Systems::fields_of))]
    fn from(system: System) -> Self {
        match system {
            System::Table {
                ltn,
                afi,
                mode,
                international,
                national,
                regional,
                urban,
            } => SystemFields {
                ltn,
                afi,
                mode,
                international,
                national,
                regional,
                urban,
                ..SystemFields::default()
            },
            System::Service {
                gap,
                sid,
                ta,
                tw,
                td,
            } => SystemFields {
                variant: 1,
                gap,
                sid,
                ta,
                tw,
                td,
                ..SystemFields::default()
            },
        }
    }
}

// The system word whose fields these are; refused (9) where there is none.
impl TryFrom<SystemFields> for System {
    type Error = Refusal;

    ghost try_from_gives = { λ fields system. system ≡ system_from fields };

    #[tactic(auto, unfolding(crate::specs::Systems::system_from))]
    fn try_from(fields: SystemFields) -> Result<System, Refusal> {
        let system = fields.by_variant();
        if fields == SystemFields::from(system) {
            Ok(system)
        } else {
            Err(Refusal::Unfit)
        }
    }
}

impl SystemFields {
    // The system word of the variant's own fields.
    #[tactic(auto, unfolding(crate::specs::Systems::system_by))]
    fn by_variant(self) -> System
        ensures { result ≡ system_by self }
    {
        if self.variant == 0 {
            System::Table {
                ltn: self.ltn,
                afi: self.afi,
                mode: self.mode,
                international: self.international,
                national: self.national,
                regional: self.regional,
                urban: self.urban,
            }
        } else {
            System::Service {
                gap: self.gap,
                sid: self.sid,
                ta: self.ta,
                tw: self.tw,
                td: self.td,
            }
        }
    }

    // The system word whose fields these are; where there is none, one that no call takes.
    pub fn system(self) -> System
        ensures { result ≡ system_or_none self }
    {
        System::try_from(self).unwrap_or(System::Service {
            gap: 255,
            sid: 0,
            ta: 0,
            tw: 0,
            td: 0,
        })
    }
}
