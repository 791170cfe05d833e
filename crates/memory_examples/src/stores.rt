use cells::stores::Store;
use reason::faults::RunFault;
use shapes::forms::Shape;
use shapes::tables::Shapes;
use std::test::Fail;
use value::kinds::Kind;
use value::values::{Stop, Value};

#[test]
fn a_variable_is_laid_written_and_given_up(rt: HostRuntime) -> Result<(), Fail> {
    let mut store = Store::new(rt.alloc())?;
    assert_eq!(rt; store.lay(&Kind::Int), Ok(1));
    assert_eq!(rt; store.read(1, Kind::Int), Err(RunFault::Unwritten.into()));
    assert_eq!(rt; store.read(1, Kind::Char), Err(RunFault::NoCell.into()));
    assert_eq!(rt; store.write(1, Value::Int(7)), Ok(()));
    assert_eq!(rt; store.lay_value(Value::Char(65)), Ok(2));
    assert_eq!(rt; store.read(2, Kind::Char), Ok(Value::Char(65)));
    store.give_up(1);
    assert_eq!(rt; store.read(2, Kind::Char), Err(RunFault::NoCell.into()));
    assert_eq!(rt; store.read(1, Kind::Int), Ok(Value::Int(7)));
    Ok(())
}

// No cell, or none to write to: nil, below and above the table, a dead cell.
#[test]
fn stray_addresses(rt: HostRuntime) -> Result<(), Fail> {
    let mut store = Store::new(rt.alloc())?;
    for address in [0, -1, i64::MIN, 1, 1025, 2049, i64::MAX] {
        assert_eq!(rt;
            store.read(address, Kind::Int),
            Err(RunFault::NoCell.into())
        );
        assert_eq!(rt;
            store.write(address, Value::Int(1)),
            Err(RunFault::NoCell.into())
        );
        assert_eq!(rt; store.delete(address), Err(RunFault::NotABlock.into()));
    }
    assert_eq!(rt; store.write(1, Value::Nothing), Err(Stop::Misfit));
    Ok(())
}

#[test]
fn blocks_of_new(rt: HostRuntime) -> Result<(), Fail> {
    let mut store = Store::new(rt.alloc())?;
    assert_eq!(rt; store.new_block(&Kind::Int), Ok(1025));
    assert_eq!(rt; store.new_block(&Kind::Bool), Ok(1026));
    assert_eq!(rt; store.delete(1025), Ok(()));
    assert_eq!(rt; store.delete(1025), Err(RunFault::NotABlock.into()));
    assert_eq!(rt; store.new_block(&Kind::Pointer), Ok(1025));
    assert_eq!(rt;
        store.read(1025, Kind::Pointer),
        Err(RunFault::Unwritten.into())
    );
    Ok(())
}

// An array of 1,023 and a record of a char and that array.
#[test]
fn shapes_of_types(rt: HostRuntime) -> Result<(), Fail> {
    let mut shapes = Shapes::new(rt.alloc())?;
    assert_eq!(rt; shapes.add(Shape::Scalar(Kind::Int)), Some(0));
    assert_eq!(rt;
        shapes.add(Shape::Array {
            count: 1023,
            element: 0,
        }),
        Some(1)
    );
    assert_eq!(rt;
        shapes.add(Shape::Array {
            count: 1025,
            element: 0,
        }),
        None
    );
    assert_eq!(rt; shapes.add(Shape::Sequence { first: 0, rest: 1 }), Some(2));
    assert_eq!(rt; shapes.add(Shape::Sequence { first: 2, rest: 0 }), None);
    assert_eq!(rt; shapes.size(2), 1024);
    let mut store = Store::new(rt.alloc())?;
    let layout = shapes.laid(2).ok_or("no layout")?;
    assert_eq!(rt; store.lay(&layout), Ok(1));
    assert_eq!(rt; store.lay(&layout), Err(RunFault::StackFull.into()));
    Ok(())
}
