// The histories of a configuration: drawn calls, each made on both, the store and the full copy, counted and told.
#![tactic(auto)]

use history_calling::Store;
use history_copies::Copies;
use history_drawing::Dice;
use history_plans::Plan;
use history_tallying::Tally;
use std::io;

// A drawn call, and what is to be compared after it. What it changes is lent one by one: parts of a struct behind `&mut` cannot be lent side by side.
fn step(
    rt: &impl Print,
    plan: &Plan,
    dice: &mut Dice,
    store: &mut Store,
    copies: &mut Copies,
    tally: &mut Tally,
) -> io::Result<()> {
    let call = dice.call(plan, copies);
    let equal = copies.equal(&call);
    let before = store.tree;
    let tried = history_comparing::make(store, copies, &call);
    tally.count(&before, &call, equal, &tried);
    tally.count_rows(&store.tree, copies);
    tally.differ(rt, plan, tried.what)
}

// A history, from a fresh store and a fresh full copy on.
fn history(
    rt: &impl Print,
    plan: &Plan,
    seed: usize,
    store: &mut Store,
    tally: &mut Tally,
) -> io::Result<()> {
    let mut dice = Dice::seeded(seed, plan.size.places);
    let mut copies = Copies::open(plan.size);
    let what = history_comparing::open(store, &copies);
    tally.differ(rt, plan, what)?;
    for _ in 0..plan.calls {
        step(rt, plan, &mut dice, store, &mut copies, tally)?;
    }
    Ok(())
}

// A history for each seed.
pub fn play(rt: &impl Print, plan: &Plan, store: &mut Store, tally: &mut Tally) -> io::Result<()> {
    for seed in 1..=plan.seeds {
        tally.begin(seed);
        history(rt, plan, seed, store, tally)?;
    }
    Ok(())
}
