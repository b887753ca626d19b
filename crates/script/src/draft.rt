ghost use Rattle.std.specs.Prelude.{◌≡◌};
ghost use Rattle.reports.specs.Fields.{given};
ghost use Rattle.script.specs.Drafts.{drafted};

use reports::raw::{Numbers, Raw};

// The fields of a report as a command gives them.
pub type Draft = Raw<Vec<u8>>;

// The fields with their texts lent, and the bit that is not used off.
pub fn raw(draft: &Draft) -> Raw<&[u8]>
    ensures { given result ≡ drafted draft.now }
{
    Raw {
        numbers: Numbers {
            spare: 0,
            ..draft.numbers
        },
        id: draft.id.as_slice(),
        acquired: draft.acquired.as_slice(),
    }
}
