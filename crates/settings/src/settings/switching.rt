#![tactic(auto, unfolding(crate::specs::Meaning::switches))]

ghost use Rattle.std.specs.Prelude.{◌≡◌, ◌≤◌};
ghost use Rattle.model.specs.Switches.{silenced_at, with_reader};
ghost use Rattle.settings.specs.Making.{by_switches, made_for, switch_there};
ghost use Rattle.settings.specs.Meaning.{switches};

use crate::settings::Settings;

// No place list has this number of places.
#[derive(Clone, Copy, Debug, PartialEq, Eq)]
pub struct NoSuchCount;

// No place stands at this position.
#[derive(Clone, Copy, Debug, PartialEq, Eq)]
pub struct NoSuchPosition;

impl Settings {
    // The most places that a list has.
    pub const MOST: usize = 128;

    // All switches off, for a number of places from 1 to 128.
    pub fn new(count: usize) -> Result<Settings, NoSuchCount>
        ensures { by_switches result ≡ made_for count }
    {
        if count == 0 || count > Settings::MOST {
            return Err(NoSuchCount);
        }
        Ok(Settings {
            reader: false,
            silenced: [false; Settings::MOST],
            count,
        })
    }

    // How many places they were made for.
    pub fn count(&self) -> usize
        ensures { result ≡ (switches self.now).count }
    {
        self.count
    }

    pub fn reader(&self) -> bool
        ensures { result ≡ (switches self.now).reader }
    {
        self.reader
    }

    pub fn set_reader(&mut self, on: bool)
        ensures { switches self.new ≡ with_reader on (switches self.old) }
    {
        self.reader = on;
    }

    // Whether the place at a position is silenced; past the places none is.
    pub fn is_silenced(&self, position: usize) -> bool
        ensures { result ≡ (switches self.now).silent position }
    {
        self.silenced[..self.count]
            .get(position)
            .copied()
            .unwrap_or(false)
    }

    // Sets the switch of a position, refused where there is no place at it; then nothing changes.
    pub fn silence(&mut self, position: usize, on: bool) -> Result<(), NoSuchPosition>
        ensures answer { result ≡ switch_there position (switches self.old) }
        ensures switches { switches self.new ≡ silenced_at position on (switches self.old) }
        ensures refused { (switches self.old).count ≤ position → self.new ≡ self.old }
    {
        // An index: with get_mut on the switches in use the proof did not close, since a field beside a ghost field is not lent.
        if position >= self.count {
            return Err(NoSuchPosition);
        }
        self.silenced[position] = on;
        Ok(())
    }
}
