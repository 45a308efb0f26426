// Sets of files, and what is told of each.
use byte_io::MemFiles;
use ciao_modules::{Export, Exports, Import, LoadFault, Unit, load_set};
use prog_data::{Refusal, kind_word};
use sqlite_items::Items;
use std::alloc::{AllocError, Global};
use std::test::Fail;
use term_core::Names;

// The texts of `d/u.pl`, `d/w.pl` and `d/lists.pl`, of which each is not there where it is empty, and what the load of `d/u.pl` gives.
#[derive(Drop)]
struct Case {
    main: &'static str,
    second: &'static str,
    third: &'static str,
    told: &'static str,
}

const SETS: [Case; 17] = [
    // two files that name each other, and each library
    Case {
        main: ":- module(u,[p/1]).\n:- use_module(w).\n:- use_module(library(lists),[append/3]).\np(X) :- q(X).\n",
        second: ":- module(_,_,[dcg,assertions]).\n:- use_module(u).\n:- use_module(library(basic_props)).\n:- use_module(library(write)).\n:- export([r/1]).\n:- use_package(fsyntax).\nq(1).\n",
        third: "",
        told: "u.pl u 1 4 p/1@1 >1@2 >2@3(append/3)\nw.pl w 1 7 all r/1@5 >0@2 >3@3 >4@4 dcg fsyntax\nlibrary(lists) library(lists) 1 13 append/3@1 reverse/2@1 length/2@1 select/3@1 last/2@1\nlibrary(basic_props) library(basic_props) 1 3 member/2@1\nlibrary(write) library(write) 1 1\n",
    },
    // a file beside the library of its name; one that is named twice, the second time with a list
    Case {
        main: ":- module(u,[]).\n:- use_module(lists).\n:- use_module(library(lists)).\n:- use_module(lists,[]).\n",
        second: "",
        third: ":- module(lists,_).\n:- use_module(lists).\n",
        told: "u.pl u 1 4 >1@2 >2@3 >1@4()\nlists.pl lists 1 2 all >1@2\nlibrary(lists) library(lists) 1 13 append/3@1 reverse/2@1 length/2@1 select/3@1 last/2@1\n",
    },
    // each directive that is passed over, or has a list that is empty
    Case {
        main: ":- module(X,[p/0],[]).\n:- use_package([]).\n:- use_package([fsyntax,nativeprops,rtchecks]).\n:- export([]).\n:- export(q/999).\n:- op(700,xfx,===).\n:- doc(a,b).\n:- comment(a,b).\n:- pred p.\n:- true pred p.\n:- regtype p/1.\n:- entry X.\n?- a.\na --> b.\n",
        second: "",
        third: "",
        told: "u.pl u 1 14 p/0@1 q/999@5 fsyntax ===700\n",
    },
    // a module directive that does not stand in the first line
    Case {
        main: "% a\n\n:- module(u,_).\n",
        second: "",
        third: "",
        told: "u.pl u 3 1 all\n",
    },
    // a file that is not there stands where it is named first: files are read in the order of the queue
    Case {
        main: ":- module(u,[]).\n:- use_module(w).\n",
        second: ":- module(w,[]).\n\n:- use_module(x).\n",
        third: "",
        told: "w.pl:3 NoFile",
    },
    Case {
        main: ":- module(u,[]).\n:- use_module(w).\n:- use_module(x).\n",
        second: ":- module(w,[]).\n:- use_module(x).\n",
        third: "",
        told: "u.pl:3 NoFile",
    },
    Case {
        main: ":- module(u,[]).\n:- use_module(x).\n:- use_module(w).\n",
        second: "a",
        third: "",
        told: "u.pl:2 NoFile",
    },
    // the text of a second file
    Case {
        main: ":- module(u,[]).\n:- use_module(w).\n",
        second: ":- module(w,[]).\n\na b.\n",
        third: "",
        told: "w.pl:3 Syntax",
    },
    Case {
        main: ":- module(u,[]).\n:- use_module(w).\n",
        second: ":- module(w,[]).\n:- op(1,xfx,a,b).\n:- op(1201,xfx,a).\n",
        third: "",
        told: "w.pl:3 OpRefused",
    },
    Case {
        main: ":- module(u,[]).\n:- use_module(w).\n",
        second: ":- module(w,[]).\n\n\na",
        third: "",
        told: "w.pl:4 NoEnd",
    },
    Case {
        main: ":- module(u,[]).\n:- use_module(w).\n",
        second: ":- module(w,[]).\np(1.5).\n",
        third: "",
        told: "w.pl:2 BadToken",
    },
    Case {
        main: ":- module(u,[]).\n:- use_module(w).\n",
        second: ":- foo.\n",
        third: "",
        told: "w.pl:1 BadModule",
    },
    Case {
        main: ":- module(u,[]).\n:- use_module(w).\n",
        second: ":- module(w,[]).\np(9223372036854775808).\n",
        third: "",
        told: "w.pl:2 IntRange",
    },
    // the main file itself is not there
    Case {
        main: "",
        second: ":- module(w,[]).\n",
        third: "",
        told: "u.pl:0 NoFile",
    },
    // what is wrong in the first file comes before an earlier line of the second, and in one file the first line
    Case {
        main: ":- module(u,[]).\n:- use_module(w).\n:- foo.\n",
        second: "a.\n",
        third: "",
        told: "u.pl:3 UnknownDirective",
    },
    Case {
        main: ":- module(u,[]).\n:- use_module(w).\n",
        second: ":- module(w,[]).\n:- foo.\n:- use_package(foo).\n",
        third: "",
        told: "w.pl:2 UnknownDirective",
    },
    // an operator of one file is none of the other
    Case {
        main: ":- module(u,[]).\n:- use_module(w).\n",
        second: ":- module(w,[]).\n:- op(700,xfx,===).\n",
        third: "",
        told: "u.pl u 1 2 >1@2\nw.pl w 1 2 ===700\n",
    },
];

// A text of `d/u.pl` alone, and what is told of it.
const REFUSALS: [(&str, &str); 62] = [
    // module directives
    ("", "u.pl:1 BadModule"),
    ("\n\n% a\n", "u.pl:1 BadModule"),
    ("\na.\n", "u.pl:2 BadModule"),
    (":- module(v,[]).\n", "u.pl:1 BadModule"),
    (":- module(u).\n", "u.pl:1 BadModule"),
    (":- module(u,[],[],[]).\n", "u.pl:1 BadModule"),
    (":- module(u,a).\n", "u.pl:1 BadModule"),
    (":- module(u,p/1).\n", "u.pl:1 BadModule"),
    (":- module(u,[p]).\n", "u.pl:1 BadModule"),
    (":- module(u,[p/1|_]).\n", "u.pl:1 BadModule"),
    (":- module(u,[p/ -1]).\n", "u.pl:1 BadModule"),
    (":- module(u,[X/1]).\n", "u.pl:1 BadModule"),
    (":- module(f(u),[]).\n", "u.pl:1 BadModule"),
    (":- module(1,[]).\n", "u.pl:1 BadModule"),
    (":- module(u,[],dcg).\n", "u.pl:1 BadModule"),
    (":- module(u,[],_).\n", "u.pl:1 BadModule"),
    (":- module(u,[],[1]).\n", "u.pl:1 BadModule"),
    ("?- module(u,[]).\n", "u.pl:1 BadModule"),
    (":- module(u,[],[foo]).\n:- foo.\n", "u.pl:1 UnknownPackage"),
    (":- module(u,[]).\n:- module(u,[]).\n", "u.pl:2 BadModule"),
    (":- module(u,[]).\n:- module(a,b,c).\n", "u.pl:2 BadModule"),
    (
        ":- module(u,[]).\n:- module(u).\n",
        "u.pl:2 UnknownDirective",
    ),
    // exports
    (
        ":- module(u,[]).\n:- export(p).\n",
        "u.pl:2 UnknownDirective",
    ),
    (
        ":- module(u,[]).\n:- export([p/1|q]).\n",
        "u.pl:2 UnknownDirective",
    ),
    (
        ":- module(u,[]).\n:- export(X).\n",
        "u.pl:2 UnknownDirective",
    ),
    (
        ":- module(u,[]).\n:- export(p/ -1).\n",
        "u.pl:2 UnknownDirective",
    ),
    (
        ":- module(u,[]).\n:- export(p/1,q/1).\n",
        "u.pl:2 UnknownDirective",
    ),
    (
        ":- module(u,[]).\n:- export([p]).\n",
        "u.pl:2 UnknownDirective",
    ),
    (
        ":- module(u,[]).\n:- export([1/1]).\n",
        "u.pl:2 UnknownDirective",
    ),
    // packages
    (
        ":- module(u,[]).\n:- use_package(foo).\n",
        "u.pl:2 UnknownPackage",
    ),
    (
        ":- module(u,[]).\n:- use_package([dcg,foo]).\n",
        "u.pl:2 UnknownPackage",
    ),
    (
        ":- module(u,[]).\n:- use_package(9).\n",
        "u.pl:2 UnknownDirective",
    ),
    (
        ":- module(u,[]).\n:- use_package(X).\n",
        "u.pl:2 UnknownDirective",
    ),
    (
        ":- module(u,[]).\n:- use_package([dcg|_]).\n",
        "u.pl:2 UnknownDirective",
    ),
    (
        ":- module(u,[]).\n:- use_package(a,b).\n",
        "u.pl:2 UnknownDirective",
    ),
    (
        ":- module(u,[]).\n:- use_package([1]).\n",
        "u.pl:2 UnknownDirective",
    ),
    (
        ":- module(u,[]).\n:- use_package(f(a)).\n",
        "u.pl:2 UnknownDirective",
    ),
    // modules
    (
        ":- module(u,[]).\n:- use_module(library(foo)).\n",
        "u.pl:2 UnknownLibrary",
    ),
    (
        ":- module(u,[]).\n:- use_module(library(X)).\n",
        "u.pl:2 UnknownLibrary",
    ),
    (
        ":- module(u,[]).\n:- use_module(library(lists(a))).\n",
        "u.pl:2 UnknownLibrary",
    ),
    (
        ":- module(u,[]).\n:- use_module(library(foo),[a]).\n",
        "u.pl:2 UnknownDirective",
    ),
    (
        ":- module(u,[]).\n:- use_module(library(lists,a)).\n",
        "u.pl:2 UnknownDirective",
    ),
    (
        ":- module(u,[]).\n:- use_module(w,p/1).\n",
        "u.pl:2 UnknownDirective",
    ),
    (
        ":- module(u,[]).\n:- use_module(w,X).\n",
        "u.pl:2 UnknownDirective",
    ),
    (
        ":- module(u,[]).\n:- use_module('A').\n",
        "u.pl:2 UnknownDirective",
    ),
    (
        ":- module(u,[]).\n:- use_module('a/b').\n",
        "u.pl:2 UnknownDirective",
    ),
    (
        ":- module(u,[]).\n:- use_module(X).\n",
        "u.pl:2 UnknownDirective",
    ),
    (
        ":- module(u,[]).\n:- use_module(1).\n",
        "u.pl:2 UnknownDirective",
    ),
    (
        ":- module(u,[]).\n:- use_module(a,[],b).\n",
        "u.pl:2 UnknownDirective",
    ),
    // others
    (":- module(u,[]).\n:- foo.\n", "u.pl:2 UnknownDirective"),
    (":- module(u,[]).\n:- X.\n", "u.pl:2 UnknownDirective"),
    (":- module(u,[]).\n:- doc(a).\n", "u.pl:2 UnknownDirective"),
    (
        ":- module(u,[]).\n:- pred(a,b).\n",
        "u.pl:2 UnknownDirective",
    ),
    (
        ":- module(u,[]).\n:- initialization(a), b.\n",
        "u.pl:2 UnknownDirective",
    ),
    (
        ":- module(u,[]).\n:- module(u,[],[],[]).\n",
        "u.pl:2 UnknownDirective",
    ),
    (
        ":- module(u,[]).\n:- op(1,xfx).\n",
        "u.pl:2 UnknownDirective",
    ),
    (
        ":- module(u,[]).\n:- op(1,xfx,a,b).\n",
        "u.pl:2 UnknownDirective",
    ),
    (
        ":- module(u,[]).\n:- comment(a).\n",
        "u.pl:2 UnknownDirective",
    ),
    (
        ":- module(u,[]).\n:- doc(a,b,c).\n",
        "u.pl:2 UnknownDirective",
    ),
    (
        ":- module(u,[]).\n:- regtype(a,b).\n",
        "u.pl:2 UnknownDirective",
    ),
    (
        ":- module(u,[]).\n:- true(a,b).\n",
        "u.pl:2 UnknownDirective",
    ),
    (":- module(u,[]).\n:- 1.\n", "u.pl:2 UnknownDirective"),
];

fn add_exports(
    alloc: Global,
    names: &Names,
    exports: &[Export],
    out: &mut String,
) -> Result<(), AllocError> {
    for export in exports {
        let name = names.text_or_empty(export.name);
        out.push_str(format!(in alloc; " {name}/{}@{}", export.arity, export.line)?.as_str())?;
    }
    Ok(())
}

// The names that an import lists.
fn add_listed(
    alloc: Global,
    names: &Names,
    exports: &[Export],
    out: &mut String,
) -> Result<(), AllocError> {
    out.push_str("(")?;
    for export in exports {
        let name = names.text_or_empty(export.name);
        out.push_str(format!(in alloc; "{name}/{}", export.arity)?.as_str())?;
    }
    out.push_str(")")
}

fn add_import(
    alloc: Global,
    names: &Names,
    import: &Import,
    out: &mut String,
) -> Result<(), AllocError> {
    out.push_str(format!(in alloc; " >{}@{}", import.unit, import.line)?.as_str())?;
    match &import.only {
        None => Ok(()),
        Some(exports) => add_listed(alloc, names, exports.as_slice(), out),
    }
}

fn add_imports(
    alloc: Global,
    names: &Names,
    imports: &[Import],
    out: &mut String,
) -> Result<(), AllocError> {
    for import in imports {
        add_import(alloc, names, import, out)?;
    }
    Ok(())
}

fn add_packages(unit: &Unit, out: &mut String) -> Result<(), AllocError> {
    if unit.dcg {
        out.push_str(" dcg")?;
    }
    if unit.fsyntax {
        out.push_str(" fsyntax")?;
    }
    Ok(())
}

// The infix operator `===` with its priority, where a unit has it.
fn add_operator(
    alloc: Global,
    names: &Names,
    unit: &Unit,
    out: &mut String,
) -> Result<(), AllocError> {
    let Some(name) = names.find("===") else {
        return Ok(());
    };
    match unit.ops.infix(name) {
        None => Ok(()),
        Some(op) => out.push_str(format!(in alloc; " ==={}", op.priority)?.as_str()),
    }
}

// Its file, its name, the line of its module directive, how many sentences it has.
fn front_of(alloc: Global, names: &Names, unit: &Unit) -> Result<String, AllocError> {
    let file = names.text_or_empty(unit.file);
    let name = names.text_or_empty(unit.name);
    let count = unit.sentences.len();
    format!(in alloc; "{file} {name} {} {count}", unit.line)
}

fn add_all_exports(
    alloc: Global,
    names: &Names,
    exports: &Exports,
    out: &mut String,
) -> Result<(), AllocError> {
    match exports {
        Exports::All(exports) => {
            out.push_str(" all")?;
            add_exports(alloc, names, exports.as_slice(), out)
        }
        Exports::Listed(exports) => add_exports(alloc, names, exports.as_slice(), out),
    }
}

// A unit in one line: its front, its exports, its imports, its packages, its operator `===`.
fn add_unit(alloc: Global, names: &Names, unit: &Unit, out: &mut String) -> Result<(), AllocError> {
    out.push_str(front_of(alloc, names, unit)?.as_str())?;
    add_all_exports(alloc, names, &unit.exports, out)?;
    add_imports(alloc, names, unit.imports.as_slice(), out)?;
    add_packages(unit, out)?;
    add_operator(alloc, names, unit, out)?;
    out.push_str("\n")
}

fn units_told(alloc: Global, names: &Names, units: &[Unit]) -> Result<String, AllocError> {
    let mut out = String::new(alloc);
    for unit in units {
        add_unit(alloc, names, unit, &mut out)?;
    }
    Ok(out)
}

fn refusal_told(alloc: Global, names: &Names, refusal: &Refusal) -> Result<String, AllocError> {
    let file = names.text_or_empty(refusal.place.file);
    let word = kind_word(refusal.kind);
    format!(in alloc; "{file}:{} {word}", refusal.place.line)
}

fn told_of(
    alloc: Global,
    names: &Names,
    answer: &Result<Items<Unit>, LoadFault>,
) -> Result<String, AllocError> {
    match answer {
        Ok(units) => units_told(alloc, names, units.as_slice()),
        Err(LoadFault::Refused(refusal)) => refusal_told(alloc, names, refusal),
        Err(LoadFault::Failed(file)) => format!(in alloc; "failed {}", names.text_or_empty(*file)),
        Err(LoadFault::NoMemory) => format!(in alloc; "memory"),
    }
}

fn add_file(files: &mut MemFiles, name: &str, text: &[u8]) -> Result<(), AllocError> {
    if files.add(name, text).is_err() {
        return Err(AllocError);
    }
    Ok(())
}

// What the load of `d/u.pl` from these files gives.
fn told_from(alloc: Global, files: &mut MemFiles) -> Result<String, AllocError> {
    let Ok(mut names) = Names::new(alloc) else {
        return Err(AllocError);
    };
    let answer = load_set(alloc, &mut names, files, "d/u.pl");
    told_of(alloc, &names, &answer)
}

// What the load of `u.pl` from these files gives.
fn told_from_here(alloc: Global, files: &mut MemFiles) -> Result<String, AllocError> {
    let Ok(mut names) = Names::new(alloc) else {
        return Err(AllocError);
    };
    let answer = load_set(alloc, &mut names, files, "u.pl");
    told_of(alloc, &names, &answer)
}

fn files_of(alloc: Global, case: &Case) -> Result<MemFiles, AllocError> {
    let mut files = MemFiles::new(alloc);
    if !case.main.is_empty() {
        add_file(&mut files, "d/u.pl", case.main.as_bytes())?;
    }
    if !case.second.is_empty() {
        add_file(&mut files, "d/w.pl", case.second.as_bytes())?;
    }
    if !case.third.is_empty() {
        add_file(&mut files, "d/lists.pl", case.third.as_bytes())?;
    }
    Ok(files)
}

// The first set of files of which something else is told.
fn first_other(alloc: Global, cases: &[Case]) -> Result<Option<String>, AllocError> {
    for case in cases {
        let mut files = files_of(alloc, case)?;
        let told = told_from(alloc, &mut files)?;
        if told.as_str() != case.told {
            return Ok(Some(told));
        }
    }
    Ok(None)
}

// The first text of which something else is told.
fn first_other_text(alloc: Global, cases: &[(&str, &str)]) -> Result<Option<String>, AllocError> {
    for (text, told) in cases {
        let mut files = MemFiles::new(alloc);
        add_file(&mut files, "d/u.pl", text.as_bytes())?;
        let found = told_from(alloc, &mut files)?;
        if found.as_str() != *told {
            return Ok(Some(format!(in alloc; "{text}{found}")?));
        }
    }
    Ok(None)
}

#[test]
fn sets_of_files(rt: HostRuntime) -> Result<(), Fail> {
    let alloc = rt.alloc();
    assert_eq!(rt; first_other(alloc, &SETS)?.as_deref(), None);
    assert_eq!(rt; first_other_text(alloc, &REFUSALS)?.as_deref(), None);
    Ok(())
}

// A main file that names another; one of the two has so many bytes of one kind.
fn told_of_bytes(alloc: Global, name: &str, byte: u8, count: usize) -> Result<String, AllocError> {
    let mut bytes = Vec::new(alloc);
    for _ in 0..count {
        bytes.push(byte)?;
    }
    let mut files = MemFiles::new(alloc);
    let main = ":- module(u,[]).\n:- use_module(w).\n";
    add_file(&mut files, "d/u.pl", main.as_bytes())?;
    add_file(&mut files, name, &bytes)?;
    told_from(alloc, &mut files)
}

// The first number of line feeds, or of other bytes, of which something else is told.
fn first_other_bytes(
    alloc: Global,
    cases: &[(&str, u8, usize, &str)],
) -> Result<Option<String>, AllocError> {
    for (name, byte, count, told) in cases {
        let found = told_of_bytes(alloc, name, *byte, *count)?;
        if found.as_str() != *told {
            return Ok(Some(found));
        }
    }
    Ok(None)
}

const BYTES: [(&str, u8, usize, &str); 5] = [
    ("d/w.pl", b'\n', 1_048_577, "w.pl:0 FileTooLarge"),
    ("d/w.pl", b'\n', 1_048_576, "w.pl:1 BadModule"),
    ("d/w.pl", 255, 1, "w.pl:1 NotUtf8"),
    ("d/u.pl", b'\n', 1_048_577, "u.pl:0 FileTooLarge"),
    ("d/u.pl", 255, 1, "u.pl:1 NotUtf8"),
];

// A main file that names another, in which a term stands below so many signs.
fn told_of_signs(alloc: Global, count: u64) -> Result<String, AllocError> {
    let mut text = String::from_str(alloc, ":- module(w,[]).\n")?;
    for _ in 0..count {
        text.push_str("- ")?;
    }
    text.push_str("a.\n")?;
    let mut files = MemFiles::new(alloc);
    let main = ":- module(u,[]).\n:- use_module(w).\n";
    add_file(&mut files, "d/u.pl", main.as_bytes())?;
    add_file(&mut files, "d/w.pl", text.as_str().as_bytes())?;
    told_from(alloc, &mut files)
}

// A main file that names so many others, none of which is there.
fn told_of_imports(alloc: Global, front: &str, count: u64) -> Result<String, AllocError> {
    let mut text = String::from_str(alloc, front)?;
    for at in 0..count {
        text.push_str(format!(in alloc; ":- use_module(a{at}).\n")?.as_str())?;
    }
    let mut files = MemFiles::new(alloc);
    add_file(&mut files, "d/u.pl", text.as_str().as_bytes())?;
    told_from(alloc, &mut files)
}

// The first number of imports of which something else is told.
fn first_other_imports(
    alloc: Global,
    cases: &[(&str, u64, &str)],
) -> Result<Option<String>, AllocError> {
    for (front, count, told) in cases {
        let found = told_of_imports(alloc, front, *count)?;
        if found.as_str() != *told {
            return Ok(Some(found));
        }
    }
    Ok(None)
}

const IMPORTS: [(&str, u64, &str); 4] = [
    (":- module(t,[]).\n", 64, "u.pl:1 BadModule"),
    (":- module(u,[]).\n", 64, "u.pl:65 TooManyFiles"),
    (":- module(u,[]).\n", 63, "u.pl:2 NoFile"),
    (
        ":- module(u,[]).\n:- use_module(library(write)).\n:- use_module(u).\n",
        64,
        "u.pl:67 TooManyFiles",
    ),
];

// What is told where the read with this number fails, of three files and a library.
fn told_of_failure(alloc: Global, call: u64) -> Result<String, AllocError> {
    let case = Case {
        main: ":- module(u,[]).\n:- use_module(lists).\n:- use_module(library(write)).\n",
        second: ":- module(w,[]).\n",
        third: ":- module(lists,[]).\n:- use_module(u).\n:- use_module(w).\n",
        told: "",
    };
    let mut files = files_of(alloc, &case)?;
    if files.fail_at(call).is_err() {
        return Err(AllocError);
    }
    told_from(alloc, &mut files)
}

// The first read of whose failure something else is told.
fn first_other_failure(alloc: Global, cases: &[(u64, &str)]) -> Result<Option<String>, AllocError> {
    for (call, told) in cases {
        let found = told_of_failure(alloc, *call)?;
        if found.as_str() != *told {
            return Ok(Some(found));
        }
    }
    Ok(None)
}

const FAILURES: [(u64, &str); 4] = [
    (0, "failed u.pl"),
    (1, "failed lists.pl"),
    (2, "failed w.pl"),
    (
        3,
        "u.pl u 1 3 >1@2 >2@3\nlists.pl lists 1 3 >0@2 >3@3\nlibrary(write) library(write) 1 1\nw.pl w 1 1\n",
    ),
];

#[test]
fn limits_of_sets(rt: HostRuntime) -> Result<(), Fail> {
    let alloc = rt.alloc();
    assert_eq!(rt; first_other_bytes(alloc, &BYTES)?.as_deref(), None);
    assert_eq!(rt; first_other_imports(alloc, &IMPORTS)?.as_deref(), None);
    Ok(())
}

#[test]
fn a_term_that_is_too_deep(rt: HostRuntime) -> Result<(), Fail> {
    let told = told_of_signs(rt.alloc(), 4_096)?;
    assert_eq!(rt; told.as_str(), "w.pl:2 TooDeep");
    Ok(())
}

#[test]
fn reads_that_fail(rt: HostRuntime) -> Result<(), Fail> {
    let alloc = rt.alloc();
    assert_eq!(rt; first_other_failure(alloc, &FAILURES)?.as_deref(), None);
    Ok(())
}

// What is told of a main file without a folder, which names another.
fn told_without_folder(alloc: Global) -> Result<String, AllocError> {
    let main = ":- module(u,[]).\n:- use_module(w).\n";
    let mut files = MemFiles::new(alloc);
    add_file(&mut files, "u.pl", main.as_bytes())?;
    add_file(&mut files, "w.pl", ":- module(w,[]).\n".as_bytes())?;
    told_from_here(alloc, &mut files)
}

#[test]
fn a_file_without_a_folder(rt: HostRuntime) -> Result<(), Fail> {
    let told = told_without_folder(rt.alloc())?;
    assert_eq!(rt; told.as_str(), "u.pl u 1 2 >1@2\nw.pl w 1 1\n");
    Ok(())
}
