//! The numbers of descriptors.

ghost use Rattle.std.specs.Prelude.{◌≡◌, ◌<◌, ◌≤◌, true, slice_set, replicate, count_by, length, IfOk, IfSome, IfNone, IsSome};
ghost use Rattle.fs_handles.specs.declared.number.Number.TheVariants.{Free, Reserved, Bound};
ghost use Rattle.fs_handles.specs.Numbers.{number_at, is_held, is_bound_to, is_reserved, description_of, held, many, AreHeld, IsLeastFree};

use crate::number::Number;
use fs_types::Fd;
use smb_base::NoMemory;
use std::alloc::Global;
use std::marker::Model;

/// The numbers of descriptors, 0 to 1,023. A contract sees what each of them is, from 0 on. Only `new` takes memory.
#[derive(Drop)]
pub struct Fds {
    numbers: Vec<Number>,
    // No number below it is free.
    hint: usize,
}

impl Model for Fds {
    ghost use Rattle.std.specs.Prelude.{◌≡◌, ◌≤◌, List, length};
    ghost use Rattle.fs_handles.specs.declared.number.Number.{Number};
    ghost use Rattle.fs_handles.specs.Numbers.{many, AreHeld};

    ghost Value = { List Number };

    ghost view = { λ f. f.numbers.items };

    ghost invariant = { λ f. (length f.numbers.items ≡ many) × (f.hint ≤ many) × AreHeld f.numbers.items 0 f.hint };
}

// The least free number from this one on.
fn free_from(numbers: &[Number], from: usize) -> Option<usize>
    ensures some { IfSome result (λ n. (n < length numbers.now)
        × (number_at numbers.now n ≡ Free)
        × AreHeld numbers.now from n) }
    ensures none { IfNone result (AreHeld numbers.now from (length numbers.now)) }
{
    for at in from..numbers.len() {
        if matches!(numbers[at], Number::Free) {
            return Some(at);
        }
    }
    None
}

// How many numbers are bound to a description.
fn bound_to(numbers: &[Number], description: usize) -> u32
    requires { length numbers.now ≤ many }
    ensures { result ≡ count_by (is_bound_to description) numbers.now }
{
    let mut count: u32 = 0;
    for number in numbers {
        if number.is_bound_to(description) {
            count += 1;
        }
    }
    count
}

impl Fds {
    /// All are free. It fails only for want of memory.
    pub fn new(alloc: Global) -> Result<Fds, NoMemory>
        ensures { IfOk result (λ fds. fds ≡ replicate many Free) }
    {
        Ok(Fds {
            numbers: vec![in alloc; Number::Free; 1024]?,
            hint: 0,
        })
    }

    /// Reserves the least free number. There is none exactly where all 1,024 are bound or reserved.
    #[tactic(auto, using(crate::proofs::HeldLaws::none_free, crate::proofs::HeldLaws::some_free))]
    pub fn reserve(&mut self) -> Option<Fd>
        ensures some { IfSome result (λ fd. IsLeastFree self.old fd.0 × (self.new ≡ slice_set self.old fd.0 Reserved)) }
        ensures free { IfSome result (λ _. held self.old < many) }
        ensures none { IfNone result ((held self.old ≡ many) × (self.new ≡ self.old)) }
        ensures whole { length self.new ≡ many }
    {
        match free_from(self.numbers.as_slice(), self.hint) {
            Some(free) => {
                self.numbers[free] = Number::Reserved;
                self.hint = free + 1;
                Some(Fd(free as u32))
            }
            None => None,
        }
    }

    /// Binds a reserved number to the open description with this index.
    pub fn bind(&mut self, fd: Fd, description: usize)
        requires { is_reserved (number_at self.old fd.0) ≡ true }
        ensures { self.new ≡ slice_set self.old fd.0 (Bound description) }
    {
        self.numbers[fd.0 as usize] = Number::Bound(description);
    }

    /// Makes a bound number a reserved one again.
    pub fn unbind(&mut self, fd: Fd)
        requires { IsSome (description_of (number_at self.old fd.0)) }
        ensures { self.new ≡ slice_set self.old fd.0 Reserved }
    {
        self.numbers[fd.0 as usize] = Number::Reserved;
    }

    /// Makes a reserved or bound number a free one.
    pub fn release(&mut self, fd: Fd)
        requires { is_held (number_at self.old fd.0) ≡ true }
        ensures { self.new ≡ slice_set self.old fd.0 Free }
    {
        let at = fd.0 as usize;
        self.numbers[at] = Number::Free;
        self.hint = self.hint.min(at);
    }

    /// The index of the open description that a number is bound to; None where it is bound to none.
    pub fn description(&self, fd: Fd) -> Option<usize>
        ensures { result ≡ description_of (number_at self.now fd.0) }
    {
        match self.numbers.get(fd.0 as usize) {
            Some(Number::Bound(description)) => Some(*description),
            _ => None,
        }
    }

    /// Whether a number is reserved.
    pub fn is_reserved(&self, fd: Fd) -> bool
        ensures { result ≡ is_reserved (number_at self.now fd.0) }
    {
        match self.numbers.get(fd.0 as usize) {
            Some(Number::Reserved) => true,
            _ => false,
        }
    }

    /// How many numbers are bound to the open description with this index.
    pub fn count(&self, description: usize) -> u32
        ensures { result ≡ count_by (is_bound_to description) self.now }
    {
        bound_to(self.numbers.as_slice(), description)
    }
}
