// Drawn histories: a store and a full copy of every version take the same calls, and every answer, row, count and sharing
// of the two is compared. The crates whose names begin with history_ are this test's own.
#![tactic(auto)]

use history_calling::Store;
use history_tallying::Tally;
use std::io;

// The histories of every configuration, with a line for each; what does not fit in memory is not run.
fn main(rt: HostRuntime) -> io::Result<()> {
    let mut tally = Tally::default();
    for plan in history_plans::plans() {
        tally.clear();
        if let Some(mut store) = Store::lent(plan.size) {
            history_playing::play(&rt, &plan, &mut store, &mut tally)?;
        }
        tally.show_calls(&rt, &plan)?;
    }
    tally.show_end(&rt)
}
