//! Laws of histories: functions that do nothing, whose clauses are proved.

ghost use Rattle.datagram_post.specs.Laws.{PollFaultsRise, KeepFaultsRise, LinkFaultsRise, SentIsGiven};

/// Each of the three counts of faults rises by one with the failure of a call of its kind, and
/// with nothing else.
pub fn faults_are_counted()
    ensures polls { PollFaultsRise }
    ensures keeps { KeepFaultsRise }
    ensures links { LinkFaultsRise }
{}

/// What was given goes on with what each further item gives, and with nothing else.
pub fn given_goes_on()
    ensures { SentIsGiven }
{}
