//! Lists of edits, each in force or not, as histories.

use std::alloc::Global;
use std::test::Fail;
use wb_arrays::{Crew, Mover};
use wb_cells::Name;
use wb_edit::{Command, Edit};
use wb_history::{History, RestoreErr};

// The history of an array without its domain.
fn of_an_array_alone<M: Mover>(
    alloc: Global,
    in_force: bool,
    mover: &M,
) -> Result<Result<History, RestoreErr>, Fail> {
    let mut edits = Vec::new(alloc);
    let array = Edit::Command(Command::Array(Name::new("A")?, Name::new("D")?));
    edits.push((array, in_force))?;
    Ok(History::restore(alloc, edits, mover))
}

// An array without its domain, in force, is no history's list; out of force it isn't tried, and has its number.
#[test]
fn restore_of_an_array_without_its_domain(rt: HostRuntime) -> Result<(), Fail> {
    let alloc = rt.alloc();
    let alone = Crew::alone(&rt);
    let refused = of_an_array_alone(alloc, true, &alone)?;
    assert!(rt; matches!(refused, Err(RestoreErr::NotLegal)));
    let kept = of_an_array_alone(alloc, false, &alone)??;
    assert_eq!(rt; kept.len(), 1);
    assert!(rt; kept.in_force(1) == Some(false));
    assert!(rt; kept.book().objects() == 0 && kept.book().writes() == 0);
    Ok(())
}
