// A wire, by what is asked of it.
ghost use Rattle.std.specs.Prelude.{◌≡◌, ◌≤◌, ◌⊎◌, [], length, true, if◌then◌else◌, MatchOption};
ghost use Rattle.std.specs.Prelude.{MatchResult};
ghost use Rattle.wire.specs.Desk.{Desk, letters_in, rounds_in, begun, posted, Takes};
ghost use Rattle.wire.specs.Desk.{turned, rounded};

use cell_mail::Letter;
use hot_units::Mail;

/// Where a wire is in a round: a letter may be taken, or one was taken and `more` is asked next, or
/// no more are taken in this round.
#[derive(Clone, Copy)]
pub enum Turn {
    Free,
    Used,
    Shut,
}

/// A letter that was not posted for want of memory.
#[derive(Drop)]
pub struct PostRefused {
    pub letter: Letter,
}

/// What carries letters from rank to rank. It gives out each posted letter once, in any order and
/// at any time.
///
/// A wire keeps the letters that are pending, a log of what happened since the last `begin`, and
/// the mail of that `begin`. It is a device without faults: want of memory in `post` is its one
/// refusal. It tells under which mails it is eager, and then it gives all letters before a round
/// ends.
pub trait Wire {
    /// What the wire holds.
    ghost desk: { Self → Desk };

    /// Empties the log and makes the wire free, with this mail as its policy. Nothing is pending.
    /// It takes no memory.
    fn begin(&mut self, mail: Mail)
        requires quiet { (desk self.old).pending ≡ [] }
        ensures fresh { desk self.new ≡ begun (desk self.old) mail };

    /// Adds a letter to the pending ones, as the newest, and an entry to the log. It may be called
    /// at every turn.
    ///
    /// The error is want of memory alone: it hands the letter back, and the wire is as it was.
    fn post(&mut self, letter: Letter) -> Result<(), PostRefused>
        ensures posted_or_unchanged { MatchResult result
            (λ _. desk self.new ≡ posted (desk self.old) letter)
            (λ e. (e.letter ≡ letter) × (desk self.new ≡ desk self.old)) };

    /// How many letters are pending. It takes no memory.
    fn pending(&self) -> usize
        ensures count { result ≡ length (desk self.now).pending };

    /// Takes any one letter out of the pending ones; None exactly where none is pending, and then
    /// nothing changes.
    ///
    /// The log has an entry more, and `more` is asked next. It takes no memory.
    fn take(&mut self) -> Option<Letter>
        requires free { (desk self.old).turn ≡ Turn.Free }
        ensures taken_or_none { MatchOption result
            (((desk self.old).pending ≡ []) × (desk self.new ≡ desk self.old))
            (λ l. Takes (desk self.old) l (desk self.new)) };

    /// Whether another letter may be taken in this round: the wire's own choice, but always true
    /// under a mail for which it is eager. It takes no memory.
    fn more(&mut self) -> bool
        requires used { (desk self.old).turn ≡ Turn.Used }
        ensures turn { desk self.new
            ≡ turned (desk self.old) (if result then Turn.Free else Turn.Shut) }
        ensures eager { (desk self.old).eager (desk self.old).mail ≡ true → result ≡ true };

    /// Ends a round: the log has an entry more, and the wire is free. Pending letters stay.
    ///
    /// Nothing is pending or the wire is shut, and no more rounds ended than letters were posted,
    /// so there is room for the entry: it takes no memory.
    fn round(&mut self)
        requires over { ((desk self.old).pending ≡ []) ⊎ ((desk self.old).turn ≡ Turn.Shut) }
        requires room { rounds_in (desk self.old).log ≤ letters_in (desk self.old).log }
        ensures ended { desk self.new ≡ rounded (desk self.old) };

    /// How many letters were posted since `begin`. It takes no memory.
    fn letters(&self) -> u64
        ensures count { result ≡ letters_in (desk self.now).log };
}
