//! Laws of the definitions, and small messages that they are tried on (RFC 6130, section 10, and RFC 7181, section 13).
ghost use Rattle.std.specs.Prelude.{◌∷◌, [], None, Some};
ghost use Rattle.mesh_wire.specs.Laws.{ReadsAsOneHello, ReadsAsOneTc, BreaksOneHelloRule, BreaksOneTcRule, ReadsAsHelloOrNot, ReadsAsTcOrNot, TellsAtEachDistance, KeepsAtEachDistance};
ghost use Rattle.mesh_wire.specs.Examples.{lone, lone_hello, bare, two_near, near_net, odd_types, own_net};
ghost use Rattle.mesh_wire.specs.Hello.{HelloIs};
ghost use Rattle.mesh_wire.specs.HelloRules.{BreaksHello};
ghost use Rattle.mesh_atoms.specs.declared.tlv_type.TheConstants.{LINK_STATUS};
ghost use Rattle.mesh_wire.specs.Rows.{HasValue};
ghost use Rattle.mesh_wire.specs.Rules.{Keeps, FirstBroken};
ghost use Rattle.mesh_wire.specs.Spellings.{wordy, too_wordy, IsForNone, IsSentForNone, unknown_tlv, with_near, status_of_sender};
ghost use Rattle.mesh_wire.specs.TcRules.{BreaksTc};
ghost use Rattle.mesh_wire.specs.Writes.{WritesHello};

/// A message that breaks no rule of a HELLO or a TC reads as one at most; of broken rules one is the first, at one address.
pub fn one_reading()
    ensures hello { ReadsAsOneHello }
    ensures tc { ReadsAsOneTc }
    ensures hello_broken { BreaksOneHelloRule }
    ensures tc_broken { BreaksOneTcRule }
{}

/// Each message whose values are of octets reads as a HELLO and breaks none of its rules, or breaks one of them first, and not
/// both; the same of a TC.
pub fn each_is_read_or_refused()
    ensures hello { ReadsAsHelloOrNot }
    ensures tc { ReadsAsTcOrNot }
{}

/// A TC that may be sent, with a value of VALIDITY_TIME whose codes are from 1 to 254, tells after any number of hops the time that
/// the value has at that distance, and breaks no rule there, however it is spelled (RFC 5497, section 6).
pub fn written_for_each_distance()
    ensures tells { TellsAtEachDistance }
    ensures keeps { KeepsAtEachDistance }
{}

/// The HELLO of a router that hears nobody is read so, and breaks no rule. A message of nothing but its header wants its
/// validity first. A multivalue gives each address its own part. Of addresses that break a rule the least is told.
pub fn worked_readings()
    ensures lone { HelloIs lone lone_hello }
    ensures lone_keeps { Keeps (BreaksHello lone) }
    ensures bare { FirstBroken (BreaksHello bare) 23 None }
    ensures multivalue { HasValue two_near near_net LINK_STATUS (2 ∷ []) }
    ensures least { FirstBroken (BreaksTc odd_types) 37 (Some own_net) }
{}

/// A HELLO may be sent with reserved flags, an empty block of packet TLVs, a length of 16 bits, an extension that is 0, and indexes of the
/// only address; but not with an address block of one octet more than the fewest. A message may not be sent that has a TLV which a
/// reading of a HELLO passes over, of the message or of an address, an MPR or a LINK_METRIC of no known meaning, a LINK_STATUS of the
/// sender's address or one that breaks a rule. It does nothing.
pub fn worked_spellings()
    ensures wordy { WritesHello lone_hello wordy }
    ensures too_wordy { IsForNone too_wordy }
    ensures unknown_tlv { IsSentForNone unknown_tlv }
    ensures unknown_part { IsSentForNone (with_near 200 []) }
    ensures unknown_relay { IsSentForNone (with_near 8 (4 ∷ [])) }
    ensures unknown_metric { IsSentForNone (with_near 7 (0 ∷ (100 ∷ []))) }
    ensures unknown_status { IsSentForNone (with_near 3 (7 ∷ [])) }
    ensures status_of_sender { IsSentForNone status_of_sender }
{}
