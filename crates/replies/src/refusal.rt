ghost use Rattle.std.specs.Prelude.{◌≡◌, Some};
ghost use Rattle.packed_log.specs.Shown.{log_fault_shown};
ghost use Rattle.values.specs.Numbers.{field_number};
ghost use Rattle.reports.specs.Bounds.{out_of_bounds};
ghost use Rattle.replies.specs.Replies.{refusal_text, located_text, reason_number};

use layout::fault::LayoutFault;
use packed_log::reading::LogFault;
use std::fmt;
use values::field::Field;

// Why a report is refused.
#[derive(Clone, Copy, Debug, PartialEq, Eq)]
pub enum Reason {
    // A field is outside its bounds.
    OutOfBounds = 15,
    // Fewer bytes are left than a report has.
    Short = 16,
}

impl From<Reason> for u8 {
    ghost from_gives = { λ x r. r ≡ reason_number x };

    fn from(value: Reason) -> u8 {
        value as u8
    }
}

// The refusal of a field that is outside its bounds.
#[derive(Clone, Copy)]
pub struct FieldRefusal(pub Field);

impl fmt::Display for FieldRefusal {
    ghost output = { λ r. Some (refusal_text (out_of_bounds (field_number r.0))) };

    fn fmt<W: fmt::Write>(&self, f: &mut fmt::Formatter<W>) -> fmt::Result {
        let number = u8::from(Reason::OutOfBounds);
        let field = u8::from(self.0);
        write!(f, "refused {number} {field}")
    }
}

// The refusal of a log's report, by its number.
#[derive(Clone, Copy)]
pub struct LogRefusal(pub LogFault);

impl fmt::Display for LogRefusal {
    ghost output = { λ r. Some (located_text (log_fault_shown r.0)) };

    fn fmt<W: fmt::Write>(&self, f: &mut fmt::Formatter<W>) -> fmt::Result {
        let report = self.0.report;
        match self.0.fault {
            LayoutFault::Outside(field) => write!(f, "{} at {report}", FieldRefusal(field)),
            LayoutFault::Short => {
                let number = u8::from(Reason::Short);
                write!(f, "refused {number} at {report}")
            }
        }
    }
}
