// From the sentences of a file to a unit.
ghost use Rattle.std.specs.Prelude.{◌≡◌, IfOk, [], ◌∷◌};
ghost use Rattle.ciao_modules.specs.FilesRead.{opening, headed, drafted, exports_with, unit_name, made_unit, file_read};

use crate::directives::packages_of;
use crate::drafts::{Draft, Wrong, follow, follow_all};
use crate::headings::{Heading, heading_in};
use crate::queue::{Member, Module};
use crate::units::{Export, Exports, Unit};
use ciao_reader::{Sentence, Source};
use prog_data::{Place, RefusalKind};
use sqlite_items::Items;
use std::alloc::Global;
use term_core::{Names, NoMemory};

/// A file whose directives were followed: the line of its module directive, whether it exports all that it defines, and what its directives make of it.
#[derive(Drop)]
pub(crate) struct Opened {
    pub(crate) line: u64,
    pub(crate) all: bool,
    pub(crate) draft: Draft,
}

/// What following the directives of a file comes to.
#[derive(Drop)]
pub(crate) enum Drafted {
    Opened(Opened),
    Wrong(Wrong),
}

/// A unit and the queue behind it.
#[derive(Drop)]
pub(crate) struct LoadedFile {
    pub(crate) unit: Unit,
    pub(crate) queue: Items<Member>,
}

/// What a file's sentences come to.
#[derive(Drop)]
pub(crate) enum FileOutcome {
    Loaded(LoadedFile),
    Wrong(Wrong),
}

// The directives behind a module directive.
fn headed(
    alloc: Global,
    names: &Names,
    place: Place,
    heading: Heading,
    queue: Items<Member>,
    rest: &[Sentence],
) -> Result<Drafted, NoMemory>
    ensures { IfOk result (λ drafted. drafted ≡ headed names.now place heading queue rest.now) }
{
    let asked = packages_of(names, heading.packages.as_slice());
    let all = heading.exported.all;
    let mut draft = Draft {
        exports: heading.exported.exports,
        imports: Items::new(alloc),
        dcg: false,
        fsyntax: false,
        queue,
    };
    match follow(&mut draft, place, asked)? {
        Some(kind) => Ok(Drafted::Wrong(Wrong {
            line: place.line,
            kind,
        })),
        None => match follow_all(alloc, names, place.file, &mut draft, rest)? {
            Some(wrong) => Ok(Drafted::Wrong(wrong)),
            None => Ok(Drafted::Opened(Opened {
                line: place.line,
                all,
                draft,
            })),
        },
    }
}

// The directives of a file whose module has this name.
fn draft_of(
    alloc: Global,
    names: &Names,
    own: &str,
    file: u64,
    sentences: &[Sentence],
    queue: Items<Member>,
) -> Result<Drafted, NoMemory>
    ensures { IfOk result (λ answer. answer ≡ drafted names.now own.now file sentences.now queue) }
{
    match sentences.split_first() {
        None => Ok(Drafted::Wrong(Wrong {
            line: 1,
            kind: RefusalKind::BadModule,
        })),
        Some((first, rest)) => match heading_in(alloc, names, own, first.line, &first.term)? {
            None => Ok(Drafted::Wrong(Wrong {
                line: first.line,
                kind: RefusalKind::BadModule,
            })),
            Some(heading) => headed(
                alloc,
                names,
                Place {
                    file,
                    line: first.line,
                },
                heading,
                queue,
                rest,
            ),
        },
    }
}

fn exports_with(all: bool, exports: Items<Export>) -> Exports
    ensures { result ≡ exports_with all exports }
{
    if all {
        Exports::All(exports)
    } else {
        Exports::Listed(exports)
    }
}

// The module as it is printed, of this file.
fn unit_name(used: Module, file: u64) -> u64
    ensures { result ≡ unit_name used file }
{
    match used {
        Module::File(name) => name,
        Module::Library(_) => file,
    }
}

/// What the sentences of a module come to, which is read from this file.
///
/// # Errors
/// Want of memory.
pub(crate) fn file_read(
    alloc: Global,
    names: &Names,
    used: Module,
    own: &str,
    file: u64,
    source: Source,
    queue: Items<Member>,
) -> Result<FileOutcome, NoMemory>
    ensures { IfOk result (λ read. read ≡ file_read names.now used own.now file source queue) }
{
    match draft_of(alloc, names, own, file, source.sentences.as_slice(), queue)? {
        Drafted::Wrong(wrong) => Ok(FileOutcome::Wrong(wrong)),
        Drafted::Opened(opened) => {
            let Opened { line, all, draft } = opened;
            Ok(FileOutcome::Loaded(LoadedFile {
                unit: Unit {
                    file,
                    name: unit_name(used, file),
                    line,
                    sentences: source.sentences,
                    exports: exports_with(all, draft.exports),
                    imports: draft.imports,
                    dcg: draft.dcg,
                    fsyntax: draft.fsyntax,
                    ops: source.ops,
                },
                queue: draft.queue,
            }))
        }
    }
}
