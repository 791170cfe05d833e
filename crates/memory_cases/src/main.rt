// Runs cases of operators, casts and blocks of `new` from standard input, one a line, and prints what each gives:
//   eval CODE KIND NUMBER KIND NUMBER
//   cast KIND NUMBER KIND
//   new SIZE
//   del ADDRESS
#![tactic(auto)]

use cells::stores::Store;
use shapes::forms::Shape;
use shapes::tables::Shapes;
use std::alloc::{AllocError, Global};
use std::fmt::Display;
use value::binary::evaluate;
use value::kinds::Kind;
use value::unary::cast;
use value::values::{Stop, Value};

fn main(rt: HostRuntime) -> anyhow::Result<()> {
    let mut memory = Memory::new(rt.alloc())?;
    for line in rt.lines(rt.alloc()) {
        let line = line?;
        memory.answer(&rt, line.as_str())?;
    }
    Ok(())
}

// The cells of a run, and the shapes of its types.
#[derive(Drop)]
struct Memory {
    store: Store,
    shapes: Shapes,
}

impl Memory {
    // No block is taken, and the shape at place 0 is an int.
    fn new(heap: Global) -> Result<Memory, AllocError> {
        let store = Store::new(heap)?;
        let mut shapes = Shapes::new(heap)?;
        shapes.add(Shape::Scalar(Kind::Int));
        Ok(Memory { store, shapes })
    }

    fn answer(&mut self, rt: &HostRuntime, line: &str) -> anyhow::Result<()> {
        let mut words = line.split(' ');
        match words.next() {
            Some("eval") => {
                let code = number(words.next()).rem_euclid(256) as u8;
                let left = value_of(kind_of(words.next()), number(words.next()));
                let right = value_of(kind_of(words.next()), number(words.next()));
                show(rt, evaluate(code, left, right))
            }
            Some("cast") => {
                let operand = value_of(kind_of(words.next()), number(words.next()));
                let kind = kind_of(words.next()).unwrap_or(Kind::Int);
                show(rt, cast(operand, kind))
            }
            Some("new") => self.block(rt, number(words.next())),
            Some("del") => {
                let done = self.store.delete(number(words.next()));
                show(rt, done.map(|()| "done"))
            }
            _ => Ok(println!(rt; "?")?),
        }
    }

    // A block of that many ints.
    fn block(&mut self, rt: &HostRuntime, size: i64) -> anyhow::Result<()> {
        let count = size.rem_euclid(2048) as usize;
        let array = Shape::Array { count, element: 0 };
        let place = self.shapes.add(array);
        match place.and_then(|i| self.shapes.laid(i)) {
            Some(layout) => show(rt, self.store.new_block(&layout)),
            None => Ok(println!(rt; "no such shape")?),
        }
    }
}

// A word as a number; 0 where there is none.
fn number(word: Option<&str>) -> i64 {
    word.map_or(0, |text| text.parse::<i64>().unwrap_or(0))
}

// A word as a kind; nothing for any other word.
fn kind_of(word: Option<&str>) -> Option<Kind> {
    match word {
        Some("char") => Some(Kind::Char),
        Some("int") => Some(Kind::Int),
        Some("bool") => Some(Kind::Bool),
        Some("pointer") => Some(Kind::Pointer),
        _ => None,
    }
}

fn value_of(kind: Option<Kind>, n: i64) -> Value {
    match kind {
        Some(Kind::Char) => Value::Char(n.rem_euclid(256) as u8),
        Some(Kind::Int) => Value::Int(n),
        Some(Kind::Bool) => Value::Bool(n != 0),
        Some(Kind::Pointer) => Value::Pointer(n),
        None => Value::Nothing,
    }
}

// What is given, or why nothing is.
fn show<T: Display + Drop>(rt: &HostRuntime, given: Result<T, Stop>) -> anyhow::Result<()> {
    match given {
        Ok(value) => println!(rt; "{value}")?,
        Err(stop) => println!(rt; "{stop}")?,
    }
    Ok(())
}
