//! What `Values` says of the symbols of the example, asked as another crate asks it. LOG is set to y.

use crate::tests::TREE;
use expr::Part;
use kconfig::{Cause, Explanation, Given, Kind, Tri, Value};
use tree::Tree;
use values::Values;

fn log_set() -> [Given; 4] {
    let mut records = [Given::none(); 4];
    records[1].give(Value::Tri(Tri::Yes));
    records
}

#[test]
fn values_by_name(rt: HostRuntime) {
    let mut tree = Tree::new();
    assert_eq!(rt; tree.read(&TREE), Ok(()));
    let values = Values::work_out(&tree, &log_set());
    assert!(rt;
        values.value_of(b"TRACE") == Some(Value::Tri(Tri::Module)),
        "a tristate"
    );
    assert!(rt; values.value_of(b"GRAMS") == Some(Value::Int(30)), "an int");
    assert!(rt; values.value_of(b"GRAM").is_none(), "no symbol");
    assert!(rt;
        values.value_of_kind(Kind::Int, b"GRAMS") == Some(Value::Int(30)),
        "of the kind"
    );
    assert!(rt;
        values.value_of_kind(Kind::Hex, b"GRAMS").is_none(),
        "of another kind"
    );
    assert!(rt; values.get(3) == Value::Int(30), "by its place");
    assert!(rt; values.get(256) == Value::Tri(Tri::No), "past the table");
}

#[test]
fn lines_that_apply(rt: HostRuntime) {
    let mut tree = Tree::new();
    assert_eq!(rt; tree.read(&TREE), Ok(()));
    let values = Values::work_out(&tree, &log_set());
    let [_, log, _, grams] = values.symbols() else {
        return assert!(rt; false, "four symbols");
    };
    let entry = values.entry(log);
    assert_eq!(rt; (entry.symbol.line, entry.dependency), (4, Tri::Module));
    assert_eq!(rt; values.visibility(&entry), Tri::Module);
    assert!(rt; values.first_default(&entry).is_none(), "no default");
    assert!(rt; values.first_range(&entry).is_none(), "no range");
    let entry = values.entry(grams);
    let default = values
        .first_default(&entry)
        .map(|default| (default.condition, default.line));
    assert_eq!(rt; default, Some((Tri::Yes, 13)));
    let bounds = values.first_range(&entry).map(|span| values.parts(span));
    assert!(rt;
        matches!(bounds, Some([Part::Word(low), Part::Word(high)]) if low.is(b"5") && high.is(b"80")),
        "the bounds"
    );
}

#[test]
fn levels_of_a_bool(rt: HostRuntime) {
    let mut tree = Tree::new();
    assert_eq!(rt; tree.read(&TREE), Ok(()));
    let values = Values::work_out(&tree, &log_set());
    let [_, log, clock, _] = values.symbols() else {
        return assert!(rt; false, "four symbols");
    };
    let levels = values.levels(log);
    assert_eq!(rt;
        (levels.visibility, levels.dependency),
        (Tri::Yes, Tri::Yes)
    );
    assert_eq!(rt; levels.value(None), Tri::No);
    assert_eq!(rt; levels.value(Some(Tri::Module)), Tri::Module);
    let levels = values.levels(clock);
    assert_eq!(rt; levels.imply.or(levels.select), levels.select);
    assert_eq!(rt; levels.value(None), Tri::Yes);
    assert_eq!(rt;
        levels.explain(None),
        Explanation {
            cause: Cause::Select,
            visibility: Tri::No,
            dependency: Tri::Yes,
            select: Tri::Yes,
            imply: Tri::No,
            line: 7,
        }
    );
}

#[test]
fn int_in_a_range(rt: HostRuntime) {
    let mut tree = Tree::new();
    assert_eq!(rt; tree.read(&TREE), Ok(()));
    let values = Values::work_out(&tree, &log_set());
    let [_, _, _, grams] = values.symbols() else {
        return assert!(rt; false, "four symbols");
    };
    assert!(rt;
        values.plain_value(grams, None) == Value::Int(30),
        "the default"
    );
    assert!(rt;
        values.plain_value(grams, Some(Value::Int(95))) == Value::Int(80),
        "the high bound"
    );
    let explanation = values.explain_plain(grams, true);
    assert_eq!(rt; (explanation.cause, explanation.line), (Cause::Given, 0));
    let explanation = values.explain_plain(grams, false);
    assert_eq!(rt; (explanation.cause, explanation.line), (Cause::Default, 13));
}
