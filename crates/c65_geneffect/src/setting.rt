// How a bit-field is set, where the value of the assignment is not used (C90 6.3.16).
ghost use Rattle.std.specs.Prelude.{◌≡◌};
ghost use Rattle.c65_csem.specs.Views.{typed_of};
ghost use Rattle.c65_genexpr.specs.Operating.{is_light};
ghost use Rattle.c65_genexpr.specs.Places.{place_of};
ghost use Rattle.c65_geneffect.specs.Setting.{setting_at, setting_of, SetsFree};

use crate::changing::number_in;
use c65_csem::TExpr;
use c65_genexpr::{is_light, place_of};
use c65_genframe::Frame;
use c65_genload::{Access, Field, Place, is_in_byte};

/// How an assignment sets a bit-field.
#[derive(Clone, Copy, Debug, PartialEq, Eq)]
pub enum Setting {
    /// By a number.
    Number(Field, u32),
    /// By a value, in one byte so far behind the address that waits in ptr2.
    Held(Field, u8),
    /// By a value, while the address of a place that is anywhere waits on the software stack.
    Loaded(Field),
    /// It is no bit-field.
    Otherwise,
}

fn setting_at(place: Place, field: Field, number: Option<u32>, near: bool) -> Setting
    ensures { result ≡ setting_at place field number near }
{
    match (number, place) {
        (Some(number), _) => Setting::Number(field, number),
        (None, Place::Far(at)) if near => Setting::Held(field, at),
        (None, _) => Setting::Loaded(field),
    }
}

fn setting_by(frame: &Frame<'_>, pushed: u16, access: Access, a: &TExpr, b: &TExpr) -> Setting
    ensures { result ≡ setting_of frame.now pushed (place_of frame.now pushed (typed_of a.now)) access (typed_of b.now) }
{
    match access {
        Access::Part(field) => setting_at(
            place_of(frame, pushed, a),
            field,
            number_in(b),
            is_in_byte(field) && is_light(frame, pushed, b),
        ),
        Access::Whole(_) => Setting::Otherwise,
    }
}

/// How an assignment sets what is kept at the place of its left side, where so many bytes wait. A right side
/// that is left out has no labels.
pub fn setting_of(frame: &Frame<'_>, pushed: u16, access: Access, a: &TExpr, b: &TExpr) -> Setting
    ensures exact { result ≡ setting_of frame.now pushed (place_of frame.now pushed (typed_of a.now)) access (typed_of b.now) }
    ensures free { SetsFree result (typed_of b.now) }
{
    setting_by(frame, pushed, access, a, b)
}
