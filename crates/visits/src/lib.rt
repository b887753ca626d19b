#![tactic(auto)]

ghost use Rattle.std.specs.Prelude.{◌≡◌, true, IfOk};
ghost use Rattle.settings.specs.Making.{switch_there};
ghost use Rattle.settings.specs.Meaning.{switches};

use settings::settings::Settings;
use settings::settings::switching::NoSuchPosition;
use settings::visit::Visit;

fn reach(settings: &Settings, position: usize) -> Result<(), NoSuchPosition>
    ensures { result ≡ switch_there position (switches settings.now) }
{
    // The test is all that is asked, and no index follows it: then_some and ok_or are no plainer.
    if position < settings.count() {
        Ok(())
    } else {
        Err(NoSuchPosition)
    }
}

// A visit that ends by a refusal passed on, by an early return or in the normal way; by each the switches
// are as before.
pub fn tended(settings: &mut Settings, place: usize, other: usize) -> Result<bool, NoSuchPosition>
    ensures switches { switches settings.new ≡ switches settings.old }
    ensures silenced { IfOk result (λ b. b ≡ true) }
{
    let visit = Visit::begin(settings, place);
    reach(visit.settings(), other)?;
    if visit.settings().is_silenced(other) {
        return Ok(true);
    }
    reach(visit.settings(), place)?;
    Ok(visit.settings().is_silenced(place))
}

#[cfg(test)]
mod tests {
    use super::*;
    use std::test::Fail;

    #[test]
    fn each_way_out(rt: HostRuntime) -> Result<(), Fail> {
        let Ok(mut settings) = Settings::new(4) else {
            return Err(Fail::new("settings"));
        };
        assert!(rt; settings.silence(2, true).is_ok());
        assert!(rt; settings.silence(4, true).is_err());
        assert!(rt; tended(&mut settings, 1, 4).is_err());
        assert!(rt; tended(&mut settings, 1, 2).is_ok());
        assert!(rt; tended(&mut settings, 1, 3).is_ok());
        assert!(rt; tended(&mut settings, 4, 3).is_err());
        assert!(rt; !settings.is_silenced(1));
        assert!(rt; settings.is_silenced(2));
        Ok(())
    }
}
