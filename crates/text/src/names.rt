// A names line: its fields are the wanted names in any order, each once.
ghost use Rattle.std.specs.Prelude.{◌≡◌};
ghost use Rattle.text.specs.Pieces.{parted};
ghost use Rattle.text.specs.Orders.{texts, index_from, order_of, Ordered};

use crate::split::Parts;

// The first name that the field is.
fn index_of(names: &[&[u8]], field: &[u8]) -> Option<usize>
    ensures { result ≡ index_from 0 field.now (texts names.now) }
{
    names.iter().position(|name| field == *name)
}

/// The index of each field's name, if the line has `N` fields and they are names, each once. Of `N` names, that is an
/// order of all of them.
pub fn name_order<const N: usize>(line: &[u8], names: &[&[u8]]) -> Option<[usize; N]>
    ensures value { result ≡ order_of N (texts names.now) (parted 44 line.now) }
    ensures exact { Ordered N (texts names.now) (parted 44 line.now) result }
{
    let mut order = [0; N];
    let mut fields = Parts::new(line, b',');
    // By place: a FixedList of any N would owe that N is small, and a public function asks for nothing.
    for i in 0..N {
        let index = index_of(names, fields.next()?)?;
        if order[..i].contains(&index) {
            return None;
        }
        order[i] = index;
    }
    fields.next().is_none().then_some(order)
}
