use ag_small::{ClaimKind, Node, ReadFault, obligations, place_of_refusal, read};
use ag_verdict::KeyKind;
use std::alloc::Global;
use std::process::Abort;
use std::test::Fail;

const ROW: &str =
    "package P\npublic\nwith Base_Types;\nsystem S\nfeatures\na : in data port Base_Types::Boolean;\n\
b : in data port Base_Types::Boolean;\no : out data port Base_Types::Boolean;\nannex agree {**\n\
guarantee \"g\" : true;\n**};\nend S;\nsystem implementation S.i\nannex agree {**\nassign o = a;\n**};\nend S.i;\nend P;\n";

#[test]
fn reads_a_package(rt: HostRuntime) -> Result<(), Fail> {
    let p = read(rt.alloc(), ROW.as_bytes())
        .ok()
        .ok_or("the text is a package")?;
    assert_eq!(rt; p.name.as_str(), "P");
    assert_eq!(rt; p.frame.as_str(), "S");
    assert_eq!(rt; p.body.as_str(), "i");
    let names = ["a", "b", "o"];
    assert_eq!(rt; p.ports.len(), names.len());
    for (port, name) in p.ports.as_slice().iter().zip(&names) {
        assert_eq!(rt; port.name.as_str(), *name);
        assert_eq!(rt; port.outward, *name == "o");
    }
    assert_eq!(rt; p.claims.len(), 1);
    for claim in p.claims.as_slice() {
        assert!(rt; claim.kind == ClaimKind::Guarantee);
        assert_eq!(rt; claim.label.as_str(), "g");
        assert!(rt; matches!(claim.formula.node(), Node::Truth(true)));
    }
    assert_eq!(rt; p.assigns.len(), 1);
    for assign in p.assigns.as_slice() {
        assert_eq!(rt; assign.name.as_str(), "o");
        if let Node::Named(name) = assign.value.node() {
            assert_eq!(rt; name.as_str(), "a");
        } else {
            assert!(rt; false, "the value is a name");
        }
    }
    Ok(())
}

// A formula with a bracket round each operator and its operands, and two round what stands in parentheses.
fn shape(alloc: Global, node: &Node) -> Result<String, Fail> {
    Ok(match node {
        Node::Truth(holds) => format!(in alloc; "{holds}")?,
        Node::Named(name) => format!(in alloc; "{}", name.as_str())?,
        Node::Group(f) => format!(in alloc; "[[{}]]", shape(alloc, f)?)?,
        Node::Not(f) => format!(in alloc; "[not {}]", shape(alloc, f)?)?,
        Node::And(f, g) => format!(in alloc; "[{} and {}]", shape(alloc, f)?, shape(alloc, g)?)?,
        Node::Or(f, g) => format!(in alloc; "[{} or {}]", shape(alloc, f)?, shape(alloc, g)?)?,
        Node::Implies(f, g) => format!(in alloc; "[{} => {}]", shape(alloc, f)?, shape(alloc, g)?)?,
    })
}

// Each row is a claim's formula and its shape.
#[test]
fn reads_formulas(rt: HostRuntime) -> Result<(), Fail> {
    let rows = [
        ("a and b and o", "[[a and b] and o]"),
        ("a or b and o or a", "[[a or [b and o]] or a]"),
        ("a=>b=>o", "[a => [b => o]]"),
        ("a and b or o => not a", "[[[a and b] or o] => [not a]]"),
        ("NOT not(A AND TRUE)", "[not [not [[[A and true]]]]]"),
        (
            "a and (b or (o => false))",
            "[a and [[[b or [[[o => false]]]]]]]",
        ),
    ];
    let (front, rest) = ROW.split_once("true").ok_or("the row has a claim")?;
    for (formula, wanted) in &rows {
        let text = format!(in rt.alloc(); "{front}{formula}{rest}")?;
        let p = read(rt.alloc(), text.as_bytes())
            .ok()
            .ok_or("the text is a package")?;
        for claim in p.claims.as_slice() {
            let found = shape(rt.alloc(), claim.formula.node())?;
            assert_eq!(rt; found.as_str(), *wanted);
        }
    }
    Ok(())
}

// How often a text may stand before a claim's formula, and no more often.
#[test]
fn keeps_the_limits(rt: HostRuntime) -> Result<(), Fail> {
    let rows = [
        ("not ", 200),
        ("a and ", 200),
        ("a or ", 200),
        ("a => ", 200),
        ("true; guarantee \"h\": ", 198),
    ];
    let (front, rest) = ROW.split_once("true").ok_or("the row has a claim")?;
    for (text, times) in &rows {
        for more in 0..2 {
            let repeated = text.repeat(rt.alloc(), *times + more)?;
            let text = format!(in rt.alloc(); "{front}{repeated}true{rest}")?;
            let is_read = read(rt.alloc(), text.as_bytes()).is_ok();
            assert_eq!(rt; is_read, more == 0, "{text}");
        }
    }
    Ok(())
}

// Each row is a text of the package above with one part changed.
#[test]
fn refuses(rt: HostRuntime) -> Result<(), Fail> {
    let rows = [
        ("end P;\n", ""),
        ("Boolean", "Integer"),
        ("assign o = a;", "assign a = b;"),
        ("assign o = a;", "assign o = o;"),
        ("b : in", "A : in"),
        ("end S.i", "end S.j"),
        ("true", "x"),
        ("package P", "package lemma"),
        (": true", ": (true"),
        (": true", ": a and or b"),
        (": true", ": a and => b"),
        (": true", ": true not a"),
    ];
    for (old, new) in &rows {
        let (front, rest) = ROW.split_once(*old).ok_or("the row has the text")?;
        let text = format!(in rt.alloc(); "{front}{new}{rest}")?;
        assert!(rt;
            matches!(read(rt.alloc(), text.as_bytes()), Err(ReadFault::NotBuilt)),
            "{new}"
        );
    }
    Ok(())
}

#[test]
fn numbers_a_package(rt: HostRuntime) -> Result<(), Fail> {
    let p = read(rt.alloc(), ROW.as_bytes())
        .ok()
        .ok_or("the text is a package")?;
    let list = obligations(rt.alloc(), &p, 3)
        .ok()
        .ok_or("there is memory")?;
    let kinds = [KeyKind::Guarantee, KeyKind::Consistent];
    assert_eq!(rt; list.len(), kinds.len());
    for (o, kind) in list.as_slice().iter().zip(&kinds) {
        assert_eq!(rt; o.key.layer.as_str(), "P::S.i");
        assert!(rt; o.key.kind == *kind);
        assert_eq!(rt; o.key.number, 1);
        let draft = o.problem.draft();
        assert_eq!(rt; draft.flags, 3);
        assert_eq!(rt; draft.parts.len(), 2);
        assert_eq!(rt; draft.equations.len(), 1);
        let sought = if draft.claim.is_some() { 0 } else { 3 };
        assert_eq!(rt; draft.length, sought);
    }
    Ok(())
}

const WHOLE: &str = "package P
public
with Base_Types;
system S
features
a : in data port Base_Types::Boolean; b : in data port Base_Types::Boolean; o : out data port Base_Types::Boolean;
annex agree {**
guarantee \"g\" : o => a;
**};
end S;
system implementation S.i
annex agree {**
assign o = a and b;
**};
end S.i;
end P;
";

// Checks that a text is refused at its `@`, which isn't part of it.
fn expect_at<R: Abort>(rt: &R, alloc: Global, marked: &str) -> Result<(), Fail> {
    let (before, rest) = marked.split_once("@").ok_or("the text is marked")?;
    let text = format!(in alloc; "{before}{rest}")?;
    let (mut line, mut column) = (1u32, 1u32);
    for byte in before.as_bytes() {
        if *byte == b'\n' {
            line = line.wrapping_add(1);
            column = 1;
        } else {
            column = column.wrapping_add(1);
        }
    }
    if text.len() > 4_194_304 {
        return Err(Fail::from("the text is short"));
    }
    assert!(rt; read(alloc, text.as_bytes()).is_err(), "{marked}");
    let place = place_of_refusal(alloc, text.as_bytes())?;
    assert_eq!(rt; (place.line, place.column), (line, column), "{marked}");
    Ok(())
}

// Each row is a part of the whole text and what stands there instead, with a mark at the place.
#[test]
fn departs(rt: HostRuntime) -> Result<(), Fail> {
    let rows = [
        ("end P;\n", "@"),
        ("end P;\n", "end P;\n@package Q public"),
        ("end P;\n", "end P; @\u{e9}"),
        ("end P;\n", "end @Q;\n"),
        ("package P", "@pack"),
        ("public", "@private"),
        ("with Base_Types", "with @Other"),
        ("system S\n", "system @bus\n"),
        ("features\n", "features @-- none\n"),
        ("Base_Types::Boolean; b", "Base_Types::@Integer; b"),
        ("Base_Types::Boolean; b", "Base_Types:: @:Boolean; b"),
        ("b : in", "@A : in"),
        ("b : in", "@Assume : in"),
        ("b : in", "@base_types : in"),
        ("b : in", "@_b : in"),
        ("b : in", "b : @inout"),
        ("\"g\"", "@\"g"),
        ("\"g\"", "@\"\t\""),
        ("\"g\"", "@g"),
        ("o => a", "o => @c"),
        ("o => a", "o @= a"),
        ("o => a", "o => @"),
        ("o => a", "(o => a@"),
        ("o => a", "o => a@)"),
        ("o => a", "@=> a"),
        ("o => a", "o => a @not b"),
        ("o => a", "o => a @&& b"),
        ("guarantee", "@lemma"),
        ("end S;", "end @T;"),
        ("S.i\n", "S@..i\n"),
        ("S.i\n", "@T.i\n"),
        ("end S.i", "end S.@j"),
        ("assign o", "assign @a"),
        ("assign o", "assign @c"),
        ("o = a and b;", "o = a and b; @assign o = a;"),
        ("o = a and b;", "o = a and @o;"),
        ("o = a and b;\n**}", "o = a and b\n@**}"),
        ("o = a and b;\n**};", "o = a and b;\n@};"),
    ];
    for (old, new) in &rows {
        let (front, rest) = WHOLE.split_once(*old).ok_or("the text has the part")?;
        let marked = format!(in rt.alloc(); "{front}{new}{rest}")?;
        expect_at(&rt, rt.alloc(), marked.as_str())?;
    }
    for marked in &["@", " \n\t\n@", "package P\npublic\n@"] {
        expect_at(&rt, rt.alloc(), *marked)?;
    }
    Ok(())
}

// The text with a second output, and with these equations.
fn two_outputs(alloc: Global, equations: &str) -> Result<String, Fail> {
    let (front, rest) = WHOLE.split_once("b : in").ok_or("the text has a port")?;
    let (middle, rest) = rest
        .split_once("assign o = a and b;")
        .ok_or("the text has an equation")?;
    Ok(format!(in alloc; "{front}b : out{middle}{equations}{rest}")?)
}

#[test]
fn departs_at_outputs(rt: HostRuntime) -> Result<(), Fail> {
    let rows = [
        "assign o = a and @b; assign b = a;",
        "assign o = a; assign @O = b;",
        "assign o = a; assign b = o; @assign b = a;",
        "assign b = @b;",
    ];
    for row in &rows {
        let marked = two_outputs(rt.alloc(), *row)?;
        expect_at(&rt, rt.alloc(), marked.as_str())?;
    }
    let text = two_outputs(rt.alloc(), "assign b = a; assign o = B;")?;
    assert!(rt; read(rt.alloc(), text.as_bytes()).is_ok());
    Ok(())
}

// The text with another part.
fn with(alloc: Global, text: &str, old: &str, new: &str) -> Result<String, Fail> {
    let (front, rest) = text.split_once(old).ok_or("the text has the part")?;
    Ok(format!(in alloc; "{front}{new}{rest}")?)
}

// Each row is a part of the whole text, how often what is put before it, and then a part with its mark.
#[test]
fn departs_at_limits(rt: HostRuntime) -> Result<(), Fail> {
    let alloc = rt.alloc();
    let clause = "guarantee \"h\" : true;\n";
    let rows = [
        ("o => a", "not ", 200, "o => a", "@not a"),
        ("o => a", "(", 200, "o => a", "@(a"),
        ("o => a", "a and ", 200, "o => a", "a @and a"),
        ("o => a", "a or ", 200, "o => a", "a @or a"),
        ("o => a", "a => ", 200, "o => a", "a @=> a"),
        ("o => a", "a or ", 199, "o => a", "a and a @and a"),
        ("b : in", "b", 255, "b : in", "@b : in"),
        ("guarantee", clause, 198, "assign", "@assign"),
        ("guarantee", clause, 199, "o => a", "o @=> a"),
        (
            "guarantee",
            clause,
            200,
            "guarantee \"g\"",
            "@guarantee \"g\"",
        ),
    ];
    for (part, piece, times, old, new) in &rows {
        let marked = with(alloc, WHOLE, *old, *new)?;
        let put = piece.repeat(alloc, *times)?;
        let marked = if *part == "b : in" {
            with(
                alloc,
                marked.as_str(),
                "@",
                format!(in alloc; "@{put}")?.as_str(),
            )?
        } else if *part == "o => a" {
            with(
                alloc,
                marked.as_str(),
                "\" : ",
                format!(in alloc; "\" : {put}")?.as_str(),
            )?
        } else {
            with(
                alloc,
                marked.as_str(),
                "{**\n",
                format!(in alloc; "{{**\n{put}")?.as_str(),
            )?
        };
        expect_at(&rt, alloc, marked.as_str())?;
    }
    Ok(())
}

// The text with so many ports more.
fn with_ports(alloc: Global, text: &str, count: u32) -> Result<String, Fail> {
    let mut ports = String::new(alloc);
    for n in 0..count {
        ports.push_str(format!(in alloc; "p{n} : in data port Base_Types::Boolean;\n")?.as_str())?;
    }
    with(
        alloc,
        text,
        "a : in",
        format!(in alloc; "{ports}a : in", ports = ports.as_str())?.as_str(),
    )
}

#[test]
fn departs_at_a_thirteenth_port(rt: HostRuntime) -> Result<(), Fail> {
    let alloc = rt.alloc();
    let marked = with(alloc, WHOLE, "o : out", "@o : out")?;
    expect_at(&rt, alloc, with_ports(alloc, marked.as_str(), 10)?.as_str())?;
    let twelve = with_ports(alloc, WHOLE, 9)?;
    assert!(rt; read(alloc, twelve.as_bytes()).is_ok());
    Ok(())
}
