//! What a message does to the bases of a router (RFC 6130, section 12, and RFC 7181, sections 14 to 16).
ghost use Rattle.std.specs.Prelude.{◌≡◌, ◌<◌, ◌≤◌, ◌+◌, ◌^◌, ◌++◌, ◌∷◌, ℕ, [], map, List, length, IfOk, OnOk, IsTrue};
ghost use Rattle.mesh_atoms.specs.declared.addr.Addr4.{Addr4};
ghost use Rattle.mesh_atoms.specs.Sound.{SoundNeighbourhood};
ghost use Rattle.mesh_atoms.specs.State.{IsOriginator, NotedMessages, TopologyBase as TopologyValue};
ghost use Rattle.mesh_nbrs.specs.Same.{SameNear};
ghost use Rattle.mesh_topo.specs.Same.{SameAdvertised};
ghost use Rattle.mesh_topo.specs.Tuples.{HasHosts};
ghost use Rattle.mesh_packet.specs.Fields.{MessageFields, fields_of_message};
ghost use Rattle.mesh_packet.specs.Grammar.{SpellsMessage};
ghost use Rattle.mesh_bases.specs.Held.Outbox.{OnlyAppends};
ghost use Rattle.mesh_bases.specs.Held.Reading.{ReadsTc};
ghost use Rattle.mesh_bases.specs.Held.Taking.{TakesFrame, kept_fates};
ghost use Rattle.mesh_bases.specs.Reading.Content.{AreReadAs, IsPacketOf};
ghost use Rattle.mesh_bases.specs.Reading.Message.{IsReadAs, IsReadAsHello, IsReadAsOther};
ghost use Rattle.mesh_machine.specs.declared.fate.Fate.{Fate as FateValue};
ghost use Rattle.mesh_machine.specs.declared.frame.Frame.{Frame};
ghost use Rattle.mesh_machine.specs.Frames.{octets_at};
ghost use Rattle.mesh_machine.specs.Laws.{SoundBases};
ghost use Rattle.mesh_machine.specs.Sendable.{AreOctets};
ghost use Rattle.mesh_machine.specs.Messages.{TakesMessage, TakesMessages, ProcessesTc, IsHeading, AreSpelled};

use crate::held::answers::{broken, hello_read, is_processed, other_read, tc_read};
use crate::held::holding::InformationBases;
use crate::held::onward::{judge, send_on};
use crate::held::outbox::Outbox;
use crate::held::quiet::Quiet;
use crate::reading::{ReadPacket, TypedMessage, typed_messages};
use mesh_atoms::{Addr4, Hello, Seq, Tc};
use mesh_expire::Bases;
use mesh_flood::{Flood, Forward, Heading, Process};
use mesh_machine::{Arrival, Fate, Read};
use mesh_nhdp::Nhdp;
use mesh_packet::{Message, Span};
use mesh_topo::Topology;
use std::alloc::AllocError;

// Takes a TC into the topology where it is to be processed: what is made of it, whether it counts as processed, and whether others
// advertise the same.
fn read_tc<B: Bases>(
    topology: &mut Topology<B>,
    now: u64,
    tc: &Tc,
    process: Process,
) -> Result<(Read, bool, bool), AllocError>
    requires now { now < 2 ^ 62 }
    requires validity { tc.now.validity < 2 ^ 62 }
    requires hosts { HasHosts tc.now }
    ensures reads { IfOk result (λ made. ReadsTc now tc.now process topology.old topology.new made.0 made.1) }
    ensures quiet { IfOk result (λ made. IsTrue made.2 → SameAdvertised topology.old topology.new) }
{
    match process {
        Process::Do => {
            let (taken, changed) = topology.take_and_tell(now, tc)?;
            Ok((tc_read(taken, tc.ansn), is_processed(taken), !changed))
        }
        answer => Ok((Read::Passed(answer), false, true)),
    }
}

// A message that is taken: how its frame arrived, the originator address of the router, and the octets that spell the message.
#[derive(Clone, Copy)]
struct TakenMessage<'a> {
    arrival: Arrival,
    own: Addr4,
    octets: &'a [u8],
}

// Takes a TC that breaks no rule, with the heading by which it is flooded: its fate, and what it has left as it was.
fn process_tc<B: Bases>(
    nhdp: &Nhdp<B>,
    topology: &mut Topology<B>,
    flood: &mut Flood<B>,
    taken: &TakenMessage,
    tc: &Tc,
    heading: &Heading,
    out: &mut Outbox,
) -> Result<(Fate, Quiet), AllocError>
    requires now { taken.now.arrival.now < 2 ^ 62 }
    requires iface { taken.now.arrival.iface < length flood.old.noted.received }
    requires times { flood.old.times ≡ nhdp.now.settings.times }
    requires message { (message : MessageFields) × SpellsMessage message taken.now.octets.now × IsHeading message heading.now }
    requires octets { AreOctets taken.now.octets.now }
    requires validity { tc.now.validity < 2 ^ 62 }
    requires hosts { HasHosts tc.now }
    ensures taken { IfOk result (λ made. (sent : List Frame) × (out.new ≡ out.old ++ sent) × ProcessesTc nhdp.now.settings taken.now.own taken.now.arrival
        (record { neighbourhood = nhdp.now.near; topology = topology.old; noted = flood.old.noted }) tc.now heading.now taken.now.octets.now
        (record { neighbourhood = nhdp.now.near; topology = topology.new; noted = flood.new.noted }) sent made.0) }
    ensures advertised { IfOk result (λ made. IsTrue made.1.advertised → SameAdvertised topology.old topology.new) }
    ensures appended { OnlyAppends out.old out.new }
    ensures times { flood.new.times ≡ flood.old.times }
{
    let arrival = taken.arrival;
    let verdict = judge(nhdp, flood, arrival, taken.own, heading);
    let (read, processed, advertised) = read_tc(topology, arrival.now, tc, verdict.process)?;
    flood.note(arrival.now, arrival.iface, heading, &verdict, processed)?;
    send_on(nhdp.settings(), verdict.forward, taken.octets, out)?;
    let fate = Fate {
        read,
        forward: verdict.forward,
    };
    let quiet = Quiet {
        near: true,
        advertised,
    };
    Ok((fate, quiet))
}

// Takes a HELLO that breaks no rule of its own: its fate, and what it has left as it was.
fn take_hello<B: Bases>(
    nhdp: &mut Nhdp<B>,
    taken: &TakenMessage,
    hello: &Hello,
) -> Result<(Fate, Quiet), AllocError>
    requires now { taken.now.arrival.now < 2 ^ 62 }
    requires iface { taken.now.arrival.iface < length nhdp.old.settings.interfaces }
    requires sound { SoundNeighbourhood nhdp.old.settings taken.now.arrival.now nhdp.old.near }
    requires reads { (message : MessageFields) × IsReadAsHello message hello.now }
    ensures taken { IfOk result (λ made. (topology : TopologyValue) (noted : NotedMessages) (message : MessageFields)
        → IsReadAsHello message hello.now → TakesMessage nhdp.old.settings taken.now.own taken.now.arrival
        (record { neighbourhood = nhdp.old.near; topology = topology; noted = noted }) message taken.now.octets.now
        (record { neighbourhood = nhdp.new.near; topology = topology; noted = noted }) [] made.0) }
    ensures near { IfOk result (λ made. IsTrue made.1.near → SameNear nhdp.old.near taken.now.arrival.now nhdp.new.near taken.now.arrival.now) }
    ensures settings { nhdp.new.settings ≡ nhdp.old.settings }
{
    let arrival = taken.arrival;
    let (answer, changed) = nhdp.take_and_tell(arrival.now, arrival.iface, arrival.sender, hello)?;
    let fate = Fate {
        read: hello_read(answer),
        forward: Forward::NotFlooded,
    };
    let quiet = Quiet {
        near: !changed,
        advertised: true,
    };
    Ok((fate, quiet))
}

// Takes a message of another type, which leaves the neighbourhood and what others advertise as they were.
fn take_other<B: Bases>(
    nhdp: &Nhdp<B>,
    flood: &mut Flood<B>,
    taken: &TakenMessage,
    heading: &Option<Heading>,
    out: &mut Outbox,
) -> Result<(Fate, Quiet), AllocError>
    requires now { taken.now.arrival.now < 2 ^ 62 }
    requires iface { taken.now.arrival.iface < length flood.old.noted.received }
    requires times { flood.old.times ≡ nhdp.now.settings.times }
    requires message { (message : MessageFields) × SpellsMessage message taken.now.octets.now × IsReadAsOther message heading.now }
    requires octets { AreOctets taken.now.octets.now }
    ensures taken { IfOk result (λ made. (sent : List Frame) × (out.new ≡ out.old ++ sent) × ((topology : TopologyValue) (message : MessageFields)
        → IsReadAsOther message heading.now → TakesMessage nhdp.now.settings taken.now.own taken.now.arrival
        (record { neighbourhood = nhdp.now.near; topology = topology; noted = flood.old.noted }) message taken.now.octets.now
        (record { neighbourhood = nhdp.now.near; topology = topology; noted = flood.new.noted }) sent made.0)) }
    ensures appended { OnlyAppends out.old out.new }
    ensures times { flood.new.times ≡ flood.old.times }
{
    match heading {
        None => {
            let fate = Fate {
                read: Read::Other,
                forward: Forward::NotFlooded,
            };
            Ok((fate, Quiet::both()))
        }
        Some(heading) => {
            let arrival = taken.arrival;
            let verdict = judge(nhdp, flood, arrival, taken.own, heading);
            flood.note(arrival.now, arrival.iface, heading, &verdict, false)?;
            send_on(nhdp.settings(), verdict.forward, taken.octets, out)?;
            let fate = Fate {
                read: other_read(verdict.process),
                forward: verdict.forward,
            };
            Ok((fate, Quiet::both()))
        }
    }
}

impl<B: Bases> InformationBases<B> {
    // Takes a message that reads so: its fate, and what it has left as it was.
    fn take_message(
        &mut self,
        taken: &TakenMessage,
        typed: &TypedMessage,
        out: &mut Outbox,
    ) -> Result<(Fate, Quiet), AllocError>
        requires now { taken.now.arrival.now < 2 ^ 62 }
        requires iface { taken.now.arrival.iface < length self.old.settings.interfaces }
        requires sound { SoundBases self.old.settings taken.now.arrival.now self.old.bases }
        requires message { (message : MessageFields) × SpellsMessage message taken.now.octets.now × IsReadAs message typed.now }
        requires octets { AreOctets taken.now.octets.now }
        ensures taken { IfOk result (λ made. (sent : List Frame) × (out.new ≡ out.old ++ sent) × ((message : MessageFields) → IsReadAs message typed.now
            → TakesMessage self.old.settings taken.now.own taken.now.arrival self.old.bases message taken.now.octets.now self.new.bases sent made.0)) }
        ensures near { IfOk result (λ made. IsTrue made.1.near
            → SameNear self.old.bases.neighbourhood taken.now.arrival.now self.new.bases.neighbourhood taken.now.arrival.now) }
        ensures advertised { IfOk result (λ made. IsTrue made.1.advertised → SameAdvertised self.old.bases.topology self.new.bases.topology) }
        ensures appended { OnlyAppends out.old out.new }
        ensures settings { self.new.settings ≡ self.old.settings }
    {
        match typed {
            TypedMessage::Hello(hello) => take_hello(&mut self.nhdp, taken, hello),
            TypedMessage::Tc(heading, tc) => process_tc(
                &self.nhdp,
                &mut self.topology,
                &mut self.flood,
                taken,
                tc,
                heading,
                out,
            ),
            TypedMessage::Broken(number) => Ok((broken(*number), Quiet::both())),
            TypedMessage::Other(heading) => {
                take_other(&self.nhdp, &mut self.flood, taken, heading, out)
            }
        }
    }

    // Takes the messages of a frame that read so, as `take_messages` does: the fate of each, where fates are kept, and what they have
    // left as it was.
    fn take_typed(
        &mut self,
        arrival: Arrival,
        bytes: &[u8],
        typed: &[TypedMessage],
        spans: &[Span],
        keeps_fates: bool,
        out: &mut Outbox,
    ) -> Result<(Seq<Fate>, Quiet), AllocError>
        requires now { arrival.now < 2 ^ 62 }
        requires iface { arrival.iface < length self.old.settings.interfaces }
        requires sound { SoundBases self.old.settings arrival.now self.old.bases }
        requires messages { (messages : List MessageFields) × AreSpelled bytes.now messages spans.now × AreReadAs messages typed.now }
        ensures taken { IfOk result (λ made. (own : Addr4) × (given : List FateValue) × (sent : List Frame) × IsOriginator self.old.settings own
            × (made.0 ≡ kept_fates keeps_fates given) × (out.new ≡ out.old ++ sent)
            × ((messages : List MessageFields) → AreSpelled bytes.now messages spans.now → AreReadAs messages typed.now
            → TakesMessages self.old.settings own arrival bytes.now self.old.bases messages spans.now self.new.bases sent given)) }
        ensures settings { self.new.settings ≡ self.old.settings }
        ensures near { IfOk result (λ made. IsTrue made.1.near → SameNear self.old.bases.neighbourhood arrival.now self.new.bases.neighbourhood arrival.now) }
        ensures advertised { IfOk result (λ made. IsTrue made.1.advertised → SameAdvertised self.old.bases.topology self.new.bases.topology) }
        ensures appended { OnlyAppends out.old out.new }
    {
        let own = self.settings().originator();
        let mut fates = Seq::new(self.settings().interfaces.allocator());
        let mut quiet = Quiet::both();
        for i in 0..typed.len() {
            let octets = octets_of(bytes, spans[i]);
            let taken = TakenMessage {
                arrival,
                own,
                octets,
            };
            let (fate, same) = self.take_message(&taken, &typed[i], out)?;
            keep_fate(keeps_fates, &mut fates, fate)?;
            quiet = quiet.and(same);
        }
        Ok((fates, quiet))
    }

    /// Takes the messages of a frame that is heard at a moment below 2^62 on one of the router's interfaces, in order; each is spelled
    /// at its place in the octets. What is sent is put at the end of `out` (RFC 7181, sections 14 to 16). The answer is what they have
    /// left as it was.
    pub fn take_messages(
        &mut self,
        arrival: Arrival,
        bytes: &[u8],
        messages: &[Message],
        spans: &[Span],
        out: &mut Outbox,
    ) -> Result<Quiet, AllocError>
        requires now { arrival.now < 2 ^ 62 }
        requires iface { arrival.iface < length self.old.settings.interfaces }
        requires sound { SoundBases self.old.settings arrival.now self.old.bases }
        requires spelled { AreSpelled bytes.now (map fields_of_message messages.now) spans.now }
        ensures taken { OnOk result ((own : Addr4) × (given : List FateValue) × (sent : List Frame) × IsOriginator self.old.settings own × (out.new ≡ out.old ++ sent)
            × TakesMessages self.old.settings own arrival bytes.now self.old.bases (map fields_of_message messages.now) spans.now self.new.bases sent given) }
        ensures settings { self.new.settings ≡ self.old.settings }
        ensures near { IfOk result (λ quiet. IsTrue quiet.near → SameNear self.old.bases.neighbourhood arrival.now self.new.bases.neighbourhood arrival.now) }
        ensures advertised { IfOk result (λ quiet. IsTrue quiet.advertised → SameAdvertised self.old.bases.topology self.new.bases.topology) }
    {
        let typed = typed_messages(self.settings().interfaces.allocator(), messages)?;
        let (_, quiet) = self.take_typed(arrival, bytes, typed.as_slice(), spans, false, out)?;
        Ok(quiet)
    }

    /// Takes a frame that spells a packet, at a moment below 2^62, where the last event was at `last`: what is expired goes (RFC 6130,
    /// section 13), and the messages are taken in order (section 12, and RFC 7181, section 14). The answer is the fate of each message,
    /// where fates are kept, and what all of that has left as it was. What is sent is put at the end of `out`.
    pub fn take_frame(
        &mut self,
        last: u64,
        arrival: Arrival,
        bytes: &[u8],
        packet: &ReadPacket,
        keeps_fates: bool,
        out: &mut Outbox,
    ) -> Result<(Seq<Fate>, Quiet), AllocError>
        requires now { arrival.now < 2 ^ 62 }
        requires iface { arrival.iface < length self.old.settings.interfaces }
        requires sound { SoundBases self.old.settings last self.old.bases }
        requires packet { IsPacketOf bytes.now packet.now }
        ensures taken { IfOk result (λ made. (given : List FateValue) × (sent : List Frame) × (made.0 ≡ kept_fates keeps_fates given) × (out.new ≡ out.old ++ sent)
            × TakesFrame self.old.settings self.old.bases arrival bytes.now given sent self.new.bases) }
        ensures settings { OnOk result (self.new.settings ≡ self.old.settings) }
        ensures sound { OnOk result (SoundBases self.new.settings arrival.now self.new.bases) }
        ensures near { IfOk result (λ made. IsTrue made.1.near → SameNear self.old.bases.neighbourhood last self.new.bases.neighbourhood arrival.now) }
        ensures advertised { IfOk result (λ made. IsTrue made.1.advertised → SameAdvertised self.old.bases.topology self.new.bases.topology) }
        // Whatever is answered, the frames that stood in `out` stay there.
        ensures appended { OnlyAppends out.old out.new }
    {
        let idle = self.expire(last, arrival.now)?;
        let typed = packet.typed.as_slice();
        let spans = packet.spans.as_slice();
        let (fates, quiet) = self.take_typed(arrival, bytes, typed, spans, keeps_fates, out)?;
        Ok((fates, idle.and(quiet)))
    }
}

// Puts a fate at the end, where fates are kept.
fn keep_fate(keeps_fates: bool, fates: &mut Seq<Fate>, fate: Fate) -> Result<(), AllocError>
    ensures { OnOk result (fates.new ≡ fates.old ++ kept_fates keeps_fates (fate ∷ [])) }
{
    if keeps_fates {
        fates.push(fate)?;
    }
    Ok(())
}

// The octets of a message that stands there.
fn octets_of(bytes: &[u8], span: Span) -> &[u8]
    requires { span.start + span.len ≤ length bytes.now }
    ensures { result.now ≡ octets_at bytes.now span }
{
    &bytes[span.start..span.start + span.len]
}
