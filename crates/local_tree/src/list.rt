ghost use Rattle.std.specs.Prelude.{◌≡◌, ◌++◌, IfOk, option_to_list};

use hot_model::{CellRec, RecList};
use hot_units::{Body, BodyList};
use std::alloc::{AllocError, Global};

/// Adds a record to a list, if there is one.
pub fn push_some(list: &mut RecList, rec: Option<CellRec>) -> Result<(), AllocError>
    ensures value { IfOk result (λ _. list.new ≡ list.old ++ option_to_list rec) }
{
    match rec {
        Some(rec) => {
            list.push(rec)?;
            Ok(())
        }
        None => Ok(()),
    }
}

/// The list of these bodies.
#[tactic(auto, using(crate::proofs::Hints::on_listed))]
pub fn listed(alloc: Global, bodies: &[Body]) -> Result<BodyList, AllocError>
    ensures value { IfOk result (λ l. l ≡ bodies.now) }
{
    let mut list = BodyList::new(alloc);
    for b in bodies {
        list.push(*b)?;
    }
    Ok(list)
}
