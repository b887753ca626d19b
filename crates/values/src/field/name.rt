ghost use Rattle.std.specs.Prelude.{Some};
ghost use Rattle.values.specs.Names.{field_name};

use crate::field::Field;
use std::fmt;

impl fmt::Display for Field {
    ghost output = { λ f. Some (field_name f) };

    fn fmt<W: fmt::Write>(&self, f: &mut fmt::Formatter<W>) -> fmt::Result {
        f.write_str(match self {
            Field::Family => "FAMILY",
            Field::Row => "ROW",
            Field::Transport => "TRANSPORT",
            Field::Processing => "PROCESSING",
            Field::Reading => "READING",
            Field::Spare => "SPARE",
            Field::Time => "TIME",
            Field::Place => "PLACE",
            Field::Source => "SOURCE",
            Field::Destination => "DESTINATION",
            Field::Id => "ID",
            Field::Acquired => "ACQUIRED",
        })
    }
}
