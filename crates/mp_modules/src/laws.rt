//! Laws of the kinds, and of event modules over time.

ghost use Rattle.mp_modules.specs.Laws.{IsNamedByWord, IsNamedByNoOther};
ghost use Rattle.mp_modules.specs.EventLaws.{DotHasHalfUp, BlankHasHalfDown, ChangesWhereInputsAgree, HasAgreedLevel, HasEachEvent, TrueWhereDiamondIsOne, FalseWhereDiamondIsNot, HasOnePending, ReturnsToAskers, ServesEachRequest, ReturnsEachDone, GrantsOneAUnit, GrantsWhileFree, OwnsFromGrant, EndsEachGrant, AsksEachGrant, GrantsEachRequest, EndsEachGrantOnce, NobodyWaitsWhileFree};

/// A kind is named by its word.
pub fn named_by_word()
    ensures { IsNamedByWord }
{}

/// A word that names a kind is the kind's word.
pub fn named_by_no_other()
    ensures { IsNamedByNoOther }
{}

/// The dot output of a TOGGLE has had half of the input's events, rounded up, and blank half, rounded down.
pub fn toggle_steers_in_turn()
    ensures dot { DotHasHalfUp }
    ensures blank { BlankHasHalfDown }
{}

/// The output of a C changes only in a unit in which both inputs, behind their bubbles, have its new level. Whenever they have the same level, the
/// output has it too.
pub fn c_changes_where_inputs_agree()
    ensures changes { ChangesWhereInputsAgree }
    ensures agreed { HasAgreedLevel }
{}

/// The outputs of a SELECT together have had as many events as its input, each at the output that the diamond chose at its time.
pub fn select_gives_each_event_once()
    ensures each { HasEachEvent }
    ensures on_true { TrueWhereDiamondIsOne }
    ensures on_false { FalseWhereDiamondIsNot }
{}

/// The request output of a CALL has had as many events as its done outputs together, and one more while a client is served; a client's
/// done output has had at most as many as its request.
pub fn call_serves_one_at_a_time()
    ensures pending { HasOnePending }
    ensures asked { ReturnsToAskers }
{}

/// If nothing is found at a CALL, a client has made as many requests as it has had done events, and one more while it is served, and each event of
/// the done input has been passed to one of the clients.
pub fn call_loses_no_event()
    ensures requests { ServesEachRequest }
    ensures dones { ReturnsEachDone }
{}

/// An ARBITER grants at most one port in a unit, and only if nobody owned before the unit or the owner's done event comes in it; the port then owns.
/// A port has had at most as many grants as requests, and at most one more than done events, and that only while it owns.
pub fn arbiter_grants_one_at_a_time()
    ensures one { GrantsOneAUnit }
    ensures free { GrantsWhileFree }
    ensures owns { OwnsFromGrant }
    ensures ended { EndsEachGrant }
    ensures asked { AsksEachGrant }
{}

/// If nothing is found at an ARBITER, a port has made as many requests as it has had grants, and one more while it waits, and has had as many grants
/// as it has made done events, and one more while it owns. Nobody waits while nobody owns.
pub fn arbiter_loses_no_event()
    ensures requests { GrantsEachRequest }
    ensures dones { EndsEachGrantOnce }
    ensures waits { NobodyWaitsWhileFree }
{}
