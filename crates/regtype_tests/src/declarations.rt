// The directives that declare types.
use ciao_reader::read_sentences;
use regtype_grammar::declared_type;
use std::alloc::Global;
use std::test::Fail;
use term_core::Names;

// A sentence, and the type that it declares, or nothing.
const ROWS: [(&str, &str); 19] = [
    (":- regtype t/1.", "t"),
    (":- regtype t(X).", "t"),
    (":- regtype t/1 # \"a type\".", "t"),
    (":- regtype t(_) # c.", "t"),
    (":- regtype '/'(X).", "/"),
    (":- regtype int/1.", "int"),
    (":- regtype t.", ""),
    (":- regtype t/0.", ""),
    (":- regtype t/2.", ""),
    (":- regtype t/(-1).", ""),
    (":- regtype t(a).", ""),
    (":- regtype t(X,Y).", ""),
    (":- regtype X/1.", ""),
    (":- regtype t/X.", ""),
    (":- regtype (t/1 # a) # b.", ""),
    (":- regtype(t/1,a).", ""),
    (":- pred t/1.", ""),
    ("regtype t/1.", ""),
    ("?- regtype t/1.", ""),
];

// The type that the one sentence of a text declares.
fn told(alloc: Global, text: &str) -> Result<String, Fail> {
    let mut names = Names::new(alloc)?;
    match read_sentences(alloc, &mut names, text.as_bytes()) {
        Ok(source) => match source.sentences.as_slice() {
            [sentence] => match declared_type(sentence) {
                None => Ok(String::new(alloc)),
                Some(name) => Ok(String::from_str(alloc, names.text_or_empty(name))?),
            },
            _ => Ok(String::from_str(alloc, "sentences")?),
        },
        Err(_) => Ok(String::from_str(alloc, "unread")?),
    }
}

// The first text of which something else is told.
fn first_other(
    alloc: Global,
    rows: &[(&'static str, &'static str)],
) -> Result<Option<&'static str>, Fail> {
    for row in rows {
        if told(alloc, row.0)?.as_str() != row.1 {
            return Ok(Some(row.0));
        }
    }
    Ok(None)
}

#[test]
fn types_are_declared(rt: HostRuntime) -> Result<(), Fail> {
    assert_eq!(rt; first_other(rt.alloc(), &ROWS)?, None);
    Ok(())
}
