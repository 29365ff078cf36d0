//! Steps taken on a table of events.
ghost use Rattle.std.specs.Prelude.{◌≡◌, None};
ghost use Rattle.bench.specs.Steps.{taken};
ghost use Rattle.run.specs.Tests.{table_run};
ghost use Rattle.bench.specs.Tests.{refusal};

use super::action::Action;
use run::Snapshot;

/// Takes a step that no refusal forbids.
pub(crate) fn take(events: &mut Snapshot, action: Action)
    requires { refusal (table_run events.old.events) action ≡ None }
    ensures { table_run events.new.events ≡ taken (table_run events.old.events) action }
{
    match action {
        Action::Enter(entry) => events.events[entry.number as usize] = Some(entry.event()),
        Action::Tie { read, write } => {
            if let Some(event) = &mut events.events[read as usize] {
                event.source = Some(write);
            }
        }
        Action::Settle { number } => {
            if let Some(event) = &mut events.events[number as usize] {
                event.settled = true;
            }
        }
    }
}
