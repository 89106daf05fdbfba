//! Facts about calls from C. Each function does nothing: its contract is the fact.
ghost use Rattle.c_objects.specs.Runs.{EachRunFromCIsLogged};

use crate::object::{Marked, Object};
use termrelay::Hub;
use termview::{UntilCleared, View};

/// The calls that C makes on a hub are a run of the library's calls, which ends with the same hub. Each client was
/// handed the bytes that the run's writers got. So what is true of every run is true of what C was handed.
pub fn runs_from_c_are_logged()
    ensures { EachRunFromCIsLogged }
{}

/// A value that may go to another thread.
fn may_move<T: Send>(_value: &T) {}

/// What a word holds may go to another thread, of whichever kind it is.
pub fn objects_may_move(object: &Object) {
    may_move(object);
}

/// What a word holds of a hub may go to another thread: only its own clients share in it, by counts that are atomic.
pub fn hubs_may_move(hub: &Hub) {
    may_move(hub);
}

/// What a word holds of a screen may go to another thread: nothing in it is shared.
pub fn screens_may_move(marked: &Marked) {
    may_move(marked);
}

/// What a word holds of a view may go to another thread: nothing in it is shared.
pub fn views_may_move(view: &View<UntilCleared>) {
    may_move(view);
}
