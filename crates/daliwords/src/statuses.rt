//! The status byte of control gear in words.

use bitflags::Flags;
use gearcmd::Status;
use std::fmt;

/// What a status byte says: `lamp on` or `lamp off`, then what else is, in the order of the bits:
/// `lamp on, lamp failure`.
#[derive(Clone, Copy)]
pub struct StatusWords(pub Status);

impl fmt::Display for StatusWords {
    fn fmt<W: fmt::Write>(&self, f: &mut fmt::Formatter<W>) -> fmt::Result {
        let lamp = if self.0.contains(Status::LAMP_ON) {
            "lamp on"
        } else {
            "lamp off"
        };
        f.write_str(lamp)?;
        for &(flag, words) in OTHERS {
            if self.0.contains(flag) {
                write!(f, ", {words}")?;
            }
        }
        Ok(())
    }
}

/// The bits of a status byte but for that of the lamp, and what each says (IEC 62386-102, clause
/// 11).
const OTHERS: &[(Status, &str)] = &[
    (Status::GEAR_FAILURE, "control gear failure"),
    (Status::LAMP_FAILURE, "lamp failure"),
    (Status::LIMIT_ERROR, "limit error"),
    (Status::FADE_RUNNING, "fade running"),
    (Status::RESET_STATE, "reset state"),
    (Status::MISSING_SHORT_ADDRESS, "no short address"),
    (Status::POWER_CYCLE_SEEN, "power cycle seen"),
];
