//! A frame for each peer of an interface.
ghost use Rattle.std.specs.Prelude.{◌≡◌, ◌<◌, ◌≤◌, [], ◌∷◌, List, Option, length};
ghost use Rattle.mesh_air.specs.Posts.{Posting, PostsEach, both};
ghost use Rattle.mesh_io.specs.Told.{TellsMore};

use mesh_atoms::Endpoint;
use mesh_io::Sent;

/// What hands frames to the operating system.
pub(crate) trait Post {
    // What was handed over so far, in the order of the calls, where it is told.
    ghost posted: { Self → Option (List Posting) };

    /// Hands a frame over for a peer, without waiting.
    fn post(&mut self, frame: &[u8], peer: Endpoint) -> Sent
        ensures { TellsMore (posted self.old) (posted self.new)
            (record { peer = peer; frame = frame.now; answer = result } ∷ []) };
}

// The answer to two sends.
fn both(sent: Sent, later: Sent) -> Sent
    ensures { result ≡ both sent later }
{
    match sent {
        Sent::Done => later,
        Sent::Failed => Sent::Failed,
    }
}

/// Hands a frame over for each peer, in order, whatever is answered. It fails where one of them did.
pub(crate) fn post_to_each<P: Post>(post: &mut P, frame: &[u8], peers: &[Endpoint]) -> Sent
    ensures { PostsEach frame.now (P.posted post.old) peers.now (P.posted post.new) result }
{
    let mut sent = Sent::Done;
    for i in 0..peers.len() {
        sent = both(sent, post.post(frame, peers[i]));
    }
    sent
}
