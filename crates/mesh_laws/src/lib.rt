//! Laws over the definitions of a router that a proof computes: networks that meet the premises of the law of settled routes,
//! and worked and wrong states.
#![tactic(auto)]

ghost use Rattle.mesh_laws.specs.Spoiled.{RefusesNeighbourOutOfNothing, RefusesNeighbourGone, RefusesSelectorKept, RefusesNeighbourTooShort, RefusesNeighbourTooLong, RefusesOtherAddresses, RefusesOtherWillingness, RefusesSelectorCleared, RefusesSymmetricUntold, RefusesSymmetricOutOfNothing, RefusesOtherMetricIn, RefusesOtherMetricOut, RefusesLostThoughBack, RefusesLossUntold, RefusesLostOutOfNothing, RefusesLostAtAnotherMoment, RefusesLostGone, RefusesLostMoved, RefusesLostSymmetric, RefusesOwnLost, RefusesLinksTogether, RefusesLinkOfUnlisted, RefusesLinkOfSharedAddress, RefusesLinkGone, RefusesOtherQuality, RefusesLostLinkKept, RefusesMadeUnadmitted, RefusesFullOfOne, RefusesTakenThoughFull, RefusesTakenThoughManyRows, RefusesFullThoughFits, RefusesLinkMetricFirst, RefusesMetricUnsaid, RefusesRowByLinkMetric, RefusesRowWithoutMetric, RefusesNumberUnnoted, RefusesNumberAtAnotherMoment, RefusesGivenOtherwise, RefusesGivenAtAnotherMoment, RefusesRouterUntaken, RefusesNetworkUntaken, RefusesRouterOfOldNumber, RefusesNetworkOfOldNumber, RefusesTupleGoneByPart, RefusesTupleGoneOfAnother, RefusesProcessedUnnoted, RefusesProcessedOutOfNothing, RefusesProcessedAtAnotherMoment, RefusesReceivedOutOfNothing, RefusesReceivedAtAnotherMoment, RefusesReceivedElsewhere, RefusesForwardedUnsent, RefusesForwardedAtAnotherMoment};
ghost use Rattle.mesh_laws.specs.Unspoiled.{LostIsKept, MessageIsNoted, MessageIsPassedOver, TcIsTaken};
ghost use Rattle.mesh_laws.specs.WrongStates.{RefusesExpiredLink, RefusesOwnTwoHop, RefusesTwoHopOfEndedLink, RefusesTupleOfOldNumber, RefusesHiddenNeighbour, RefusesPendingTold, RefusesRowOfNoSelector, RefusesTwoHopOnHeardLink, RefusesNeighbourWithoutLink, RefusesDearerRelays, RefusesGreaterParent, RefusesRouteTwice, RefusesTupleTooMany, RefusesStaleTuple};
ghost use Rattle.mesh_laws.specs.WorkedHello.{FirstHelloIsTaken, SecondHelloIsTaken};
ghost use Rattle.mesh_laws.specs.Witnesses.{TwoRoutersSettle, ThreeRoutersSettle};

/// The premises of the law can be met: two routers that hear each other are a settled network, in which each has a row of
/// the other. It does nothing.
pub fn two_routers_settle()
    ensures { TwoRoutersSettle }
{}

/// The same with a relay: of three routers in a row the outer two choose the middle one, have 2-hop tuples of each other and
/// take the rows that it advertises, and the last one is the gateway of a network. Their routes are worked out by hand. It does
/// nothing.
pub fn three_routers_settle()
    ensures { ThreeRoutersSettle }
{}

/// The definitions take two worked HELLOs, with the tuples and moments that are expected. It does nothing.
pub fn worked_hellos_are_taken()
    ensures first { FirstHelloIsTaken }
    ensures second { SecondHelloIsTaken }
{}

/// The definitions of a router refuse wrong states, each clause named by what is wrong. It does nothing.
pub fn wrong_states_refused()
    ensures expired_link { RefusesExpiredLink }
    ensures own_two_hop { RefusesOwnTwoHop }
    ensures two_hop_of_ended_link { RefusesTwoHopOfEndedLink }
    ensures tuple_of_old_number { RefusesTupleOfOldNumber }
    ensures hidden_neighbour { RefusesHiddenNeighbour }
    ensures pending_told { RefusesPendingTold }
    ensures row_of_no_selector { RefusesRowOfNoSelector }
    ensures two_hop_on_heard_link { RefusesTwoHopOnHeardLink }
    ensures neighbour_without_link { RefusesNeighbourWithoutLink }
    ensures dearer_relays { RefusesDearerRelays }
    ensures greater_parent { RefusesGreaterParent }
    ensures route_twice { RefusesRouteTwice }
    ensures tuple_too_many { RefusesTupleTooMany }
    ensures stale_tuple { RefusesStaleTuple }
{}

/// Each clause of a definition that alone refuses some state does refuse it: states and answers with one thing spoiled, each clause
/// named by what is spoiled. It does nothing.
pub fn spoiled_states_are_refused()
    ensures neighbour_out_of_nothing { RefusesNeighbourOutOfNothing }
    ensures neighbour_gone { RefusesNeighbourGone }
    ensures selector_kept { RefusesSelectorKept }
    ensures neighbour_too_short { RefusesNeighbourTooShort }
    ensures neighbour_too_long { RefusesNeighbourTooLong }
    ensures other_addresses { RefusesOtherAddresses }
    ensures other_willingness { RefusesOtherWillingness }
    ensures selector_cleared { RefusesSelectorCleared }
    ensures symmetric_untold { RefusesSymmetricUntold }
    ensures symmetric_out_of_nothing { RefusesSymmetricOutOfNothing }
    ensures other_metric_in { RefusesOtherMetricIn }
    ensures other_metric_out { RefusesOtherMetricOut }
    ensures lost_though_back { RefusesLostThoughBack }
    ensures loss_untold { RefusesLossUntold }
    ensures lost_out_of_nothing { RefusesLostOutOfNothing }
    ensures lost_at_another_moment { RefusesLostAtAnotherMoment }
    ensures lost_gone { RefusesLostGone }
    ensures lost_moved { RefusesLostMoved }
    ensures lost_symmetric { RefusesLostSymmetric }
    ensures own_lost { RefusesOwnLost }
    ensures links_together { RefusesLinksTogether }
    ensures link_of_unlisted { RefusesLinkOfUnlisted }
    ensures link_of_shared_address { RefusesLinkOfSharedAddress }
    ensures link_gone { RefusesLinkGone }
    ensures other_quality { RefusesOtherQuality }
    ensures lost_link_kept { RefusesLostLinkKept }
    ensures made_unadmitted { RefusesMadeUnadmitted }
    ensures full_of_one { RefusesFullOfOne }
    ensures taken_though_full { RefusesTakenThoughFull }
    ensures taken_though_many_rows { RefusesTakenThoughManyRows }
    ensures full_though_fits { RefusesFullThoughFits }
    ensures link_metric_first { RefusesLinkMetricFirst }
    ensures metric_unsaid { RefusesMetricUnsaid }
    ensures row_by_link_metric { RefusesRowByLinkMetric }
    ensures row_without_metric { RefusesRowWithoutMetric }
    ensures number_unnoted { RefusesNumberUnnoted }
    ensures number_at_another_moment { RefusesNumberAtAnotherMoment }
    ensures given_otherwise { RefusesGivenOtherwise }
    ensures given_at_another_moment { RefusesGivenAtAnotherMoment }
    ensures router_untaken { RefusesRouterUntaken }
    ensures network_untaken { RefusesNetworkUntaken }
    ensures router_of_old_number { RefusesRouterOfOldNumber }
    ensures network_of_old_number { RefusesNetworkOfOldNumber }
    ensures tuple_gone_by_part { RefusesTupleGoneByPart }
    ensures tuple_gone_of_another { RefusesTupleGoneOfAnother }
    ensures processed_unnoted { RefusesProcessedUnnoted }
    ensures processed_out_of_nothing { RefusesProcessedOutOfNothing }
    ensures processed_at_another_moment { RefusesProcessedAtAnotherMoment }
    ensures received_out_of_nothing { RefusesReceivedOutOfNothing }
    ensures received_at_another_moment { RefusesReceivedAtAnotherMoment }
    ensures received_elsewhere { RefusesReceivedElsewhere }
    ensures forwarded_unsent { RefusesForwardedUnsent }
    ensures forwarded_at_another_moment { RefusesForwardedAtAnotherMoment }
{}

/// The definitions take the states and answers that some of the spoiled ones come from: a lost address that stays, a message that
/// is noted and one that is passed over, and a TC. It does nothing.
pub fn unspoiled_states_are_taken()
    ensures lost_kept { LostIsKept }
    ensures message_noted { MessageIsNoted }
    ensures message_passed_over { MessageIsPassedOver }
    ensures tc_taken { TcIsTaken }
{}
