//! The holder of each lock.
ghost use Rattle.std.specs.Prelude.{◌≡◌, map};
ghost use Rattle.recording.specs.Rows.{row_of};
ghost use Rattle.tables.specs.Steps.{freed, relocked};

use recording::action::Action;

/// The holder of a lock after a thread has finished.
fn freed_by(thread: u16, holder: Option<u16>) -> Option<u16>
    ensures { result ≡ freed thread holder }
{
    holder.filter(|other| *other != thread)
}

/// Frees the locks of a thread.
fn free_all(holders: &mut [Option<u16>; 64], thread: u16)
    ensures { holders.new ≡ map (freed thread) holders.old }
{
    for holder in holders.iter_mut() {
        *holder = freed_by(thread, *holder);
    }
}

/// Takes the step of an accepted operation of the thread.
pub(crate) fn step(holders: &mut [Option<u16>; 64], thread: u16, action: Action)
    ensures { holders.new ≡ relocked (row_of thread action) holders.old }
{
    match action {
        Action::ThreadExit => free_all(holders, thread),
        Action::Acquire(lock) => holders[lock.number() as usize] = Some(thread),
        Action::Release(lock) => holders[lock.number() as usize] = None,
        _ => {}
    }
}
