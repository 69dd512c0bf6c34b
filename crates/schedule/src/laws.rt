//! What holds of a match behind every list of steps, as a law of the definitions: a function that does nothing, whose clause is
//! proved.

ghost use Rattle.schedule.specs.Theorem.{SchedulesHold};

/// Whatever honest players choose, whatever frames are delivered, lost, repeated or brought by hostile players, and whichever peers
/// are stopped: each honest log is honest and all together are authentic, no honest player is named, what is accepted of one is what
/// it chose, two logs with different moves of a hostile player convict it, and no group of honest players waits for itself.
pub fn schedules()
    ensures { SchedulesHold }
{}
