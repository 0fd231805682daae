// The fields in an array that is lent, and the place by value.
ghost use Rattle.std.specs.Prelude.{◌≡◌, Ok, Err, ◌<◌};
ghost use Rattle.read_fields.specs.Fields.{at_place, conflicts, fields_of, get, put, went};

use crate::{Outcome, Place};
use base_refusals::Refusal;

pub fn get(f: &[i32; 24], k: usize) -> i32
    requires { k < 24 }
    ensures { result ≡ get (fields_of f.now) k }
{
    f[k]
}

pub fn put(f: &mut [i32; 24], k: usize, z: i32)
    requires { k < 24 }
    ensures { fields_of f.new ≡ put (fields_of f.old) k z }
{
    f[k] = z;
}

// Whether a field was set to another value.
pub fn holds_other(f: &[i32; 24], k: usize, z: i32) -> bool
    requires { k < 24 }
    ensures { result ≡ conflicts (get (fields_of f.now) k) z }
{
    read_integers::from_char_set_int(get(f, k), z)
}

pub fn read(p: Place) -> Outcome
    ensures { result ≡ went (Ok tt) p }
{
    Outcome {
        verdict: Ok(()),
        place: p,
    }
}

pub fn refuse(why: Refusal, p: Place) -> Outcome
    ensures { result ≡ went (Err why) p }
{
    Outcome {
        verdict: Err(why),
        place: p,
    }
}

pub fn at_place(p: Place, at: usize) -> Place
    ensures { result ≡ at_place p at }
{
    Place { at, ..p }
}
