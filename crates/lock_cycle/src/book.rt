//! The book.
ghost use Rattle.std.specs.Prelude.{◌≡◌, ◌≤◌, false, OnOk, IfErr};
ghost use Rattle.lock_cycle.specs.Books.{new_book, IsMember, standing as standing_of, is_stopped, left_of, with_standing, granted, tick_of, wakes_at, try_refusal, after_try, free_refusal, after_free, after_stop, seize_refusal, after_seize, after_spend};

use crate::answers::{LockNo, NotHolder, SeizeNo};
use crate::standings::Standing;
use mas_types::{MEMBERS_MOST, MemberId};
use std::marker::Model;

const MOST: usize = MEMBERS_MOST as usize;

/// Who holds the lock of the checkpoint, and how each member stands with it.
#[derive(Drop)]
pub struct LockBook {
    /// The member that holds the lock, 0 for nobody.
    holder: MemberId,
    /// The tries that were counted.
    tick: u64,
    /// How many commands a whole hold has.
    hold: u16,
    /// For how many ticks a member that freed the lock leaves it to others.
    dormancy: u16,
    /// How many members there are, 1 to 8.
    members: u8,
    /// How each member stands with the lock, by its number.
    standings: [Standing; MOST],
}

impl Model for LockBook {
    ghost use Rattle.std.specs.Prelude.{◌≤◌, take};
    ghost use Rattle.mas_types.specs.Limits.{members_most};
    ghost use Rattle.lock_cycle.specs.Books.{Book};

    ghost Value = { Book };

    ghost view = { λ b. record {
      holder = b.holder;
      tick = b.tick;
      hold = b.hold;
      dormancy = b.dormancy;
      members = take b.members b.standings;
    } };

    ghost invariant = { λ b. b.members ≤ members_most };
}

impl LockBook {
    /// The book of so many members, in which nobody holds, nobody is stopped and the tick is 0. A hold has `hold`
    /// commands; who gave the lock up leaves it to others for `dormancy` tries.
    pub fn new(members: u8, hold: u16, dormancy: u16) -> LockBook
        requires { members ≤ MEMBERS_MOST }
        ensures { result ≡ new_book members hold dormancy }
    {
        let standing = Standing {
            stopped: false,
            freed: None,
            left: hold,
        };
        LockBook {
            holder: MemberId(0),
            tick: 0,
            hold,
            dormancy,
            members,
            standings: [standing; MOST],
        }
    }

    /// A try of the member at the lock. An `inner` try is one in the middle of a step: it raises no tick and is never
    /// dormant. The member holds after `Ok`. `Down` comes exactly where it is stopped; `Busy` exactly where it isn't
    /// and another one holds; `Dormant` exactly where it isn't stopped, nobody holds, the try isn't inner, and its tick
    /// is below the one of the member's last outer free and the dormancy together.
    pub fn try_lock(&mut self, by: MemberId, inner: bool) -> Result<(), LockNo>
        requires { IsMember self.old by }
        ensures book { self.new ≡ after_try self.old by inner }
        ensures ok { OnOk result (try_refusal self.old by inner ≡ None) }
        ensures err { IfErr result (λ e. try_refusal self.old by inner ≡ Some e) }
    {
        let refusal = self.refusal(by, inner);
        let standing = self.standing(by);
        if standing.stopped {
            return Err(LockNo::Down);
        }
        if self.holder.0 == by.0 {
            return Ok(());
        }
        self.tick = tick_after(self.tick, inner);
        if let Some(why) = refusal {
            return Err(why);
        }
        self.grant(by);
        Ok(())
    }

    /// The member gives the lock up. An outer free, one that isn't `inner`, notes the tick, from which on the member
    /// is dormant. `NotHolder` comes exactly where the member doesn't hold, and nothing is changed then.
    pub fn free(&mut self, by: MemberId, inner: bool) -> Result<(), NotHolder>
        requires { IsMember self.old by }
        ensures book { self.new ≡ after_free self.old by inner }
        ensures ok { OnOk result (free_refusal self.old by ≡ None) }
        ensures err { IfErr result (λ e. free_refusal self.old by ≡ Some e) }
    {
        if self.holder.0 != by.0 {
            return Err(NotHolder(self.holder));
        }
        self.holder = MemberId(0);
        if !inner {
            let mut standing = self.standing(by);
            standing.freed = Some(self.tick);
            self.put(by, standing);
        }
        Ok(())
    }

    /// The member is stopped. It still holds what it held.
    pub fn stop(&mut self, by: MemberId)
        requires { IsMember self.old by }
        ensures { self.new ≡ after_stop self.old by }
    {
        let mut standing = self.standing(by);
        standing.stopped = true;
        self.put(by, standing);
    }

    /// The member takes over the lock that the stopped member `of` holds. `StillUp` comes exactly where `of` isn't
    /// stopped, `NotHolder` exactly where it is stopped and doesn't hold; nothing is changed then.
    pub fn seize(&mut self, by: MemberId, of: MemberId) -> Result<(), SeizeNo>
        requires by { IsMember self.old by }
        requires of { IsMember self.old of }
        requires up { is_stopped self.old by ≡ false }
        ensures book { self.new ≡ after_seize self.old by of }
        ensures ok { OnOk result (seize_refusal self.old of ≡ None) }
        ensures err { IfErr result (λ e. seize_refusal self.old of ≡ Some e) }
    {
        if !self.stopped(of) {
            return Err(SeizeNo::StillUp);
        }
        if self.holder.0 != of.0 {
            return Err(SeizeNo::NotHolder(self.holder));
        }
        self.grant(by);
        Ok(())
    }

    /// The member's hold has so many commands less, and no less than 0.
    pub fn spend(&mut self, by: MemberId, commands: u16)
        requires { IsMember self.old by }
        ensures { self.new ≡ after_spend self.old by commands }
    {
        let mut standing = self.standing(by);
        standing.left = standing.left.saturating_sub(commands);
        self.put(by, standing);
    }

    /// The commands that the member's hold has left.
    pub fn hold_left(&self, by: MemberId) -> u16
        requires { IsMember self.now by }
        ensures { result ≡ left_of self.now by }
    {
        self.standing(by).left
    }

    /// The member that holds, or 0.
    pub fn holder(&self) -> MemberId
        ensures { result ≡ self.now.holder }
    {
        self.holder
    }

    /// The member is stopped.
    pub fn stopped(&self, by: MemberId) -> bool
        requires { IsMember self.now by }
        ensures { result ≡ is_stopped self.now by }
    {
        self.standing(by).stopped
    }

    /// The number of outer tries so far, except those of stopped members and of holders. It stays at the greatest u64.
    pub fn tick(&self) -> u64
        ensures { result ≡ self.now.tick }
    {
        self.tick
    }

    fn standing(&self, of: MemberId) -> Standing
        requires { IsMember self.now of }
        ensures { result ≡ standing_of self.now of }
    {
        self.standings[of.0 as usize - 1]
    }

    fn put(&mut self, of: MemberId, standing: Standing)
        requires { IsMember self.old of }
        ensures { self.new ≡ with_standing self.old of standing }
    {
        self.standings[of.0 as usize - 1] = standing;
    }

    fn grant(&mut self, to: MemberId)
        requires { IsMember self.old to }
        ensures { self.new ≡ granted self.old to }
    {
        let mut standing = self.standing(to);
        standing.left = self.hold;
        self.holder = to;
        self.put(to, standing);
    }

    fn refusal(&self, by: MemberId, inner: bool) -> Option<LockNo>
        requires { IsMember self.now by }
        ensures { result ≡ try_refusal self.now by inner }
    {
        let standing = self.standing(by);
        if standing.stopped {
            return Some(LockNo::Down);
        }
        if self.holder.0 == by.0 {
            return None;
        }
        if self.holder.0 != 0 {
            return Some(LockNo::Busy(self.holder));
        }
        let until = dormant_until(standing.freed, self.dormancy);
        if !inner && tick_after(self.tick, inner) < until {
            return Some(LockNo::Dormant(until));
        }
        None
    }
}

fn tick_after(tick: u64, inner: bool) -> u64
    ensures { result ≡ tick_of tick inner }
{
    if inner { tick } else { tick.saturating_add(1) }
}

fn dormant_until(freed: Option<u64>, dormancy: u16) -> u64
    ensures { result ≡ wakes_at dormancy freed }
{
    match freed {
        Some(tick) => tick.saturating_add(dormancy as u64),
        None => 0,
    }
}
