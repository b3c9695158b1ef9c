//! The file that is written of a state is one that is read, with the same state; and steps of a
//! file can be taken back.

ghost use Rattle.std.specs.Prelude.{◌≤◌};
ghost use Rattle.hot_units.specs.Limits.{max_bodies};
ghost use Rattle.state_file.specs.Headers.{StateHeaderReads};
ghost use Rattle.state_file.specs.Texts.{FilesHaveStates, StatesReadBack};
ghost use Rattle.state_file.specs.Commands.{FilesUndo};

/// The header of the file of `_count` bodies (at most 1,048,576) has their layout, for either type
/// of idents and whatever rows follow.
///
/// The body does nothing: the contract is the law.
pub fn state_header_reads(_unsigned: bool, _count: u32)
    requires { _count ≤ max_bodies }
    ensures law { StateHeaderReads _unsigned _count }
{}

/// A body file that has no fault, alone in a list of files, has a state: its bodies, and the columns
/// `vx`, `vy`, `vz` as their velocities, 0 where there is none.
///
/// The body does nothing: the contract is the law.
pub fn files_have_states()
    ensures law { FilesHaveStates }
{}

/// The file of a state that can be written has no fault, alone in a list of files, and holds that
/// state with its idents. That is a state of at most 1,048,576 bodies, whose mass is at most 2^40
/// together, whose velocities fit 8 signed bytes, with idents that fit their column.
///
/// The body does nothing: the contract is the law.
pub fn states_read_back()
    ensures law { StatesReadBack }
{}

/// Steps of a body file, and the same steps back, give the file of no step, byte for byte, whatever
/// law of places and masses gives the forces. That neither the steps nor the file of no step has a
/// stop is assumed; that the steps back have none is proved.
///
/// The body does nothing: the contract is the law.
pub fn files_undo()
    ensures law { FilesUndo }
{}
