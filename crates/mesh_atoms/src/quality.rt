//! The quality of links, and rules of admittance as values.
ghost use Rattle.std.specs.Prelude.{◌≡◌, ◌≤◌, map, All, [], IfOk};
ghost use Rattle.std.specs.List.{list_any};
ghost use Rattle.mesh_atoms.specs.Base.{addr_eq};
ghost use Rattle.mesh_atoms.specs.Quality.{quality_of, quality_at};

use crate::{Addr4, Admit, QualityStep, SenderMetric, SenderQuality, Seq};
use std::alloc::AllocError;

impl Admit {
    /// Admits whatever is received from these senders: both thresholds are 0, and each quality stays 100.
    pub fn all(senders: &Seq<SenderMetric>) -> Result<Admit, AllocError>
        ensures accept { IfOk result (λ admit. admit.accept ≡ 0) }
        ensures reject { IfOk result (λ admit. admit.reject ≡ 0) }
        ensures senders { IfOk result (λ admit. map (λ s. s.sender) admit.senders ≡ map (λ s. s.sender) senders.now) }
        ensures steps { IfOk result (λ admit. All (λ s. s.steps ≡ []) admit.senders) }
    {
        Ok(Admit {
            accept: 0,
            reject: 0,
            senders: without_steps(senders)?,
        })
    }

    /// An equal rule.
    pub fn copy(&self) -> Result<Admit, AllocError>
        ensures { IfOk result (λ copy. copy ≡ self.now) }
    {
        Ok(Admit {
            accept: self.accept,
            reject: self.reject,
            senders: copy_senders(&self.senders)?,
        })
    }
}

impl SenderQuality {
    /// Equal qualities.
    pub fn copy(&self) -> Result<SenderQuality, AllocError>
        ensures { IfOk result (λ copy. copy ≡ self.now) }
    {
        Ok(SenderQuality {
            sender: self.sender,
            steps: self.steps.copy()?,
        })
    }
}

/// The quality of a link with these addresses at a moment in ticks of 1/8192 s: the least of those of the senders among them,
/// and 100 where none is. Takes no memory.
pub fn quality_at(rule: &Admit, addrs: &[Addr4], now: u64) -> u8
    ensures value { result ≡ quality_at rule.now addrs.now now }
    ensures most { result ≤ 100 }
{
    let mut least = 100;
    for sender in rule.senders.as_slice() {
        if is_among(addrs, sender.sender) {
            least = u8::min(least, sender_quality(sender.steps.as_slice(), now));
        }
    }
    least
}

// Whether the address is in the list.
fn is_among(addrs: &[Addr4], addr: Addr4) -> bool
    ensures { result ≡ list_any (addr_eq addr) addrs.now }
{
    for other in addrs {
        if addr == *other {
            return true;
        }
    }
    false
}

// The quality of what a sender with these steps sends.
fn sender_quality(steps: &[QualityStep], now: u64) -> u8
    ensures value { result ≡ quality_of steps.now now }
    ensures most { result ≤ 100 }
{
    let mut quality = 100;
    for step in steps {
        if step.at <= now {
            quality = step.quality;
        }
    }
    quality
}

// Each of these senders, with no step.
fn without_steps(senders: &Seq<SenderMetric>) -> Result<Seq<SenderQuality>, AllocError>
    ensures senders { IfOk result (λ all. map (λ s. s.sender) all ≡ map (λ s. s.sender) senders.now) }
    ensures steps { IfOk result (λ all. All (λ s. s.steps ≡ []) all) }
{
    let mut all = Seq::new(senders.allocator());
    for sender in senders.as_slice() {
        all.push(SenderQuality {
            sender: sender.sender,
            steps: Seq::new(senders.allocator()),
        })?;
    }
    Ok(all)
}

fn copy_senders(senders: &Seq<SenderQuality>) -> Result<Seq<SenderQuality>, AllocError>
    ensures { IfOk result (λ copy. copy ≡ senders.now) }
{
    let mut copies = Seq::new(senders.allocator());
    for sender in senders.as_slice() {
        copies.push(sender.copy()?)?;
    }
    Ok(copies)
}
