//! The UPSes that a monitor watches.
ghost use Rattle.std.specs.Prelude.{◌≡◌, ◌==◌};
ghost use Rattle.std.specs.List.{list_any};
ghost use Rattle.nut_conf.specs.Bytes.{at_sign};
ghost use Rattle.nut_conf.specs.Faults.{Reads, Spares};
ghost use Rattle.nut_conf.specs.Target.{target_view};
ghost use Rattle.nut_conf.specs.Upsmon.{monitored_target, written_target};

use crate::fault::{FaultKind, Misread};
use crate::hint::{Expected, Expects};
use crate::limits::{PASSWORD_MAX, TARGET_MAX, USER_NAME_MAX};
use crate::slot::{Clashes, FromValues};
use crate::target::Target;
use crate::text::{Name, Number, Text};
use crate::users::Role;
use crate::values::Values;
use arrayvec::ArrayVec;

/// A UPS that a monitor watches: a MONITOR line.
#[derive(PartialEq, Eq, Drop)]
pub struct Monitored {
    /// The target as the file writes it. Notices name the UPS by it.
    pub written: ArrayVec<u8, TARGET_MAX>,
    /// The UPS, host and port that the target names.
    pub target: Target,
    /// How many power supplies of this machine the UPS feeds: the power value.
    pub power: Number<0, 1000>,
    /// The user as whom the monitor logs in.
    pub user: Name<USER_NAME_MAX>,
    /// The password of that user.
    pub password: Text<1, PASSWORD_MAX>,
    /// Whether this machine is a primary or a secondary of the UPS.
    pub role: Role,
}

fn has_at(bytes: &[u8]) -> bool
    ensures { result ≡ list_any (λ c. c == at_sign) bytes.now }
{
    bytes.iter().any(|b| *b == b'@')
}

/// Reads a target that names its host. Returns `BadName` for anything else.
fn read_target(bytes: &[u8]) -> Result<Target, FaultKind>
    ensures reads { Reads target_view result (monitored_target bytes.now) }
    ensures spares { Spares result }
{
    if !has_at(bytes) {
        return Err(FaultKind::BadName);
    }
    match Target::read(bytes) {
        Ok(target) => Ok(target),
        Err(_) => Err(FaultKind::BadName),
    }
}

/// Reads a target that names its host. Returns the target as written, and what it names.
fn read_written(bytes: &[u8]) -> Result<(ArrayVec<u8, TARGET_MAX>, Target), FaultKind>
    ensures reads { Reads (λ t. (t.0.items, target_view t.1)) result (written_target bytes.now) }
    ensures spares { Spares result }
{
    let target = read_target(bytes)?;
    match ArrayVec::try_from(bytes) {
        Ok(written) => Ok((written, target)),
        Err(_) => unreachable!(),
    }
}

impl Expects for (ArrayVec<u8, TARGET_MAX>, Target) {
    const EXPECTED: Expected = Expected::Target;
}

impl FromValues for Monitored {
    ghost use Rattle.nut_conf.specs.Upsmon.{monitor_setting, monitor_value};

    ghost setting = { monitor_setting };

    ghost reads = { monitor_value };

    fn from_values(values: &Values<'_, '_>) -> Result<Self, Misread> {
        if values.len() != 5 {
            return Err(Misread::of_line(FaultKind::BadForm, Expected::Form));
        }
        let (written, target) = values.told(0, read_written(values.get(0)))?;
        let power = values.told(1, Number::read(values.get(1)))?;
        let user = values.told(2, Name::read(values.get(2)))?;
        let password = values.told(3, Text::read(values.get(3)))?;
        let role = values.told(4, Role::read(values.get(4)))?;
        Ok(Monitored {
            written,
            target,
            power,
            user,
            password,
            role,
        })
    }
}

impl Clashes for Monitored {
    ghost use Rattle.nut_conf.specs.Upsmon.{same_target};

    ghost clashes = { same_target };

    fn clashes(&self, other: &Self) -> bool {
        self.target == other.target
    }
}
