ghost use Rattle.std.specs.Prelude.{◌+◌, ◌≤◌, All, IfOk};

use plan_watch::{NoMemory, Stay, Tally, Watcher, tell_all};
use std::alloc::Global;
use std::process::Abort;
use std::test::Fail;

// A watcher that wants more at so many calls, and is then done.
#[derive(Drop)]
struct Until {
    pairs: Vec<(u32, u32)>,
    calls: u32,
}

impl Watcher for Until {
    ghost use Rattle.std.specs.Prelude.{◌-◌, ◌==◌, false, length, if◌then◌else◌};
    ghost use Rattle.std.specs.Vec.{vec_capacity};
    ghost use Rattle.plan_watch.specs.declared.stay.Stay.TheVariants.{More, Done};

    ghost heard = { λ t. t.pairs.items };

    ghost room = { λ t. vec_capacity t.pairs - length t.pairs.items };

    ghost will = { λ t version obstacles. if t.calls == 0 then Done else More };

    ghost steady = { λ t. false };

    fn told(&mut self, version: u32, obstacles: u32) -> Stay {
        self.pairs.push_reserved((version, obstacles));
        if self.calls == 0 {
            Stay::Done
        } else {
            self.calls -= 1;
            Stay::More
        }
    }

    fn kept(&self) -> &[(u32, u32)] {
        self.pairs.as_slice()
    }
}

fn done_after(alloc: Global, calls: u32) -> Result<Box<dyn Watcher>, Fail>
    ensures { IfOk result (λ w. 4 ≤ room w + 1) }
{
    let pairs = Vec::with_capacity(alloc, 3)?;
    Ok(Box::new(alloc, Until { pairs, calls })?)
}

fn tally(alloc: Global) -> Result<Box<dyn Watcher>, Fail>
    ensures { IfOk result (λ w. 4 ≤ room w + 1) }
{
    match Tally::new(alloc) {
        Ok(made) => Ok(Box::new(alloc, made)?),
        Err(NoMemory) => Err(Fail::from("memory")),
    }
}

// Tells the pair of one version, from 1 to 3.
fn tell(watchers: &mut Vec<Box<dyn Watcher>>, version: u32, obstacles: u32)
    requires version { version ≤ 3 }
    requires room { All (λ w. 4 ≤ room w + version) watchers.old.items }
    ensures { All (λ w. 4 ≤ room w + (version + 1)) watchers.new.items }
{
    tell_all(watchers, version, obstacles);
}

// A watcher for each of these numbers of calls.
fn done_after_each(alloc: Global, calls: &[u32]) -> Result<Vec<Box<dyn Watcher>>, Fail>
    ensures { IfOk result (λ v. All (λ w. 4 ≤ room w + 1) v.items) }
{
    let mut watchers = Vec::new(alloc);
    for k in 0..calls.len() {
        watchers.push(done_after(alloc, calls[k])?)?;
    }
    Ok(watchers)
}

// Tells the pair of one version, after which so many are left.
fn leaves<R: Abort>(
    rt: &R,
    watchers: &mut Vec<Box<dyn Watcher>>,
    version: u32,
    obstacles: u32,
    left: usize,
)
    requires version { version ≤ 3 }
    requires room { All (λ w. 4 ≤ room w + version) watchers.old.items }
    ensures { All (λ w. 4 ≤ room w + (version + 1)) watchers.new.items }
{
    tell(watchers, version, obstacles);
    assert_eq!(rt; watchers.len(), left);
}

// What the first watcher keeps.
fn first_keeps<R: Abort>(rt: &R, watchers: &[Box<dyn Watcher>], pairs: &[(u32, u32)]) {
    assert!(rt; !watchers.is_empty());
    assert_eq!(rt; watchers[0].kept(), pairs);
}

#[test]
fn a_watcher_that_is_done_is_let_go_and_a_tally_hears_all(rt: HostRuntime) -> Result<(), Fail> {
    let alloc = rt.alloc();
    let mut watchers = Vec::new(alloc);
    watchers.push(done_after(alloc, 1)?)?;
    watchers.push(tally(alloc)?)?;
    leaves(&rt, &mut watchers, 1, 1, 2);
    first_keeps(&rt, &watchers, &[(1, 1)]);
    leaves(&rt, &mut watchers, 2, 0, 1);
    leaves(&rt, &mut watchers, 3, 1, 1);
    first_keeps(&rt, &watchers, &[(1, 1), (2, 0), (3, 1)]);
    Ok(())
}

#[test]
fn those_that_are_left_keep_their_order(rt: HostRuntime) -> Result<(), Fail> {
    let mut watchers = done_after_each(rt.alloc(), &[0, 2, 0, 0, 1])?;
    leaves(&rt, &mut watchers, 1, 7, 2);
    leaves(&rt, &mut watchers, 2, 8, 1);
    leaves(&rt, &mut watchers, 3, 9, 0);
    Ok(())
}

#[test]
fn nobody_is_told(rt: HostRuntime) -> Result<(), Fail> {
    let mut watchers: Vec<Box<dyn Watcher>> = Vec::new(rt.alloc());
    tell_all(&mut watchers, 1, 1);
    assert!(&rt; watchers.is_empty());
    Ok(())
}
