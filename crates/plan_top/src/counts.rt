// What a demonstration counts.
ghost use Rattle.std.specs.Prelude.{◌≡◌, ◌+◌, ◌*◌, ◌^◌, ◌≤◌};
ghost use Rattle.plan_reply.specs.Seen.{answer_seen};
ghost use Rattle.plan_top.specs.Demo.{count_answer};
ghost use Rattle.plan_top.specs.Demonstration.{CountsReplies};

use plan_reply::Reply;

/// Edits, by how they ended.
#[derive(Clone, Copy)]
pub struct EditCount {
    pub accepted: u32,
    pub refused: u32,
}

/// Replies, by what they are, and the points of all paths and the segments of all chains.
#[derive(Clone, Copy)]
pub struct ReplyCount {
    pub paths: u32,
    pub chains: u32,
    pub touching: u32,
    pub points: u128,
    pub segments: u128,
}

impl ReplyCount {
    /// Counts one more reply, of at most a thousand.
    pub fn add(&mut self, reply: &Reply)
        requires few { self.old.paths + self.old.chains + self.old.touching + 1 ≤ 1000 }
        requires points { self.old.points + 2 ^ 64 ≤ 1000 * 2 ^ 64 }
        requires segments { self.old.segments + 2 ^ 64 ≤ 1000 * 2 ^ 64 }
        ensures value { self.new ≡ count_answer self.old (answer_seen reply.now) }
        ensures counts { CountsReplies 1 self.old self.new }
    {
        match reply {
            Reply::Path(path) => {
                self.paths += 1;
                self.points += path.points.len() as u128;
            }
            Reply::Blocked(chain) => {
                self.chains += 1;
                self.segments += chain.segments.len() as u128;
            }
            Reply::StartTouches(_) | Reply::GoalTouches(_) => self.touching += 1,
        }
    }
}
