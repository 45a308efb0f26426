// The load: the files of the queue are read one after another.
ghost use Rattle.std.specs.Prelude.{◌≡◌, ◌≤◌, ◌<◌, ◌++◌, true, take, Option, option_map, slice_get, Ok, Err, IfOk, IfErr, OnOk, MatchResult, string_bytes, vec_items, length, ℕ, List};
ghost use Rattle.byte_io.specs.Outside.{Held, HasCause, Rose, StaysSteady, answer_of};
ghost use Rattle.term_core.specs.Lists.{IsPrefix};
ghost use Rattle.ciao_modules.specs.FileNames.{is_main_file, base_of};
ghost use Rattle.ciao_modules.specs.Libraries.{library_text};
ghost use Rattle.ciao_modules.specs.Loaded.{size_limit, start_names, start_queue, module_name, module_file, refused_at, text_fault, ReadsText, ReadsFile, ReadsQueue, Loaded as IsLoaded};
ghost use Rattle.ciao_modules.specs.LoadReads.{Agree, new_reads, most_read, ReadsTell, ReadsInOrder, AreLoadReads, IsLoadFault};
ghost use Rattle.ciao_modules.specs.Stages.{capacity, IsReadOf, Asks, FromSource, IsQueue, StopsIn, FileFails, TellsLast, TextFails, FrontFails, FailsFrom, progress_of};
ghost use Rattle.ciao_modules.specs.UnitRanges.{AreUnitsInRange, IsFaultInRange};

use crate::file_names::{base_of, file_of, folder_of, path_of};
use crate::libraries::{Library, library_file, library_name, library_text};
use crate::queue::{Member, Module};
use crate::reading::{FileOutcome, LoadedFile, file_read};
use crate::units::{LoadFault, Unit};
use byte_io::{Files, FilesFault};
use ciao_reader::{ReadFault, read_sentences};
use prog_data::{Place, Refusal, RefusalKind};
use sqlite_items::Items;
use std::alloc::Global;
use term_core::{Names, NoMemory, one, ranges_law};

// The greatest number of bytes of a file.
const SIZE_LIMIT: usize = 1_048_576;

// One more, which tells that a file has more.
const MOST_READ: u64 = 1_048_577;

// The name that a module's own directive has.
fn module_name(alloc: Global, names: &Names, used: Module) -> Result<String, NoMemory>
    ensures { IfOk result (λ text. string_bytes text ≡ module_name names.now used) }
{
    match used {
        Module::File(name) => Ok(String::from_str(alloc, names.text_or_empty(name))?),
        Module::Library(library) => Ok(String::from_str(alloc, library_name(library))?),
    }
}

// A module's file as it is printed.
fn module_file(alloc: Global, names: &Names, used: Module) -> Result<String, NoMemory>
    ensures { IfOk result (λ text. string_bytes text ≡ module_file names.now used) }
{
    match used {
        Module::File(name) => file_of(alloc, names.text_or_empty(name)),
        Module::Library(library) => Ok(String::from_str(alloc, library_file(library))?),
    }
}

// A module as texts: the name that its own directive has, its file as it is printed, and where that stands.
#[derive(Drop)]
struct ModuleTexts {
    own: String,
    file: String,
    path: String,
}

// These texts of a module.
fn texts_of(
    alloc: Global,
    names: &Names,
    folder: &str,
    used: Module,
) -> Result<ModuleTexts, NoMemory>
    ensures own { IfOk result (λ texts. string_bytes texts.own ≡ module_name names.now used) }
    ensures file { IfOk result (λ texts. string_bytes texts.file ≡ module_file names.now used) }
    ensures path { IfOk result (λ texts. string_bytes texts.path ≡ folder.now ++ module_file names.now used) }
{
    let own = module_name(alloc, names, used)?;
    let file = module_file(alloc, names, used)?;
    let path = path_of(alloc, folder, file.as_str())?;
    Ok(ModuleTexts { own, file, path })
}

// The first `most` bytes of a library's text.
fn library_bytes(alloc: Global, library: Library, most: u64) -> Result<Vec<u8>, NoMemory>
    ensures { IfOk result (λ bytes. bytes.items ≡ take most (library_text library)) }
{
    let text = library_text(library).as_bytes();
    if (text.len() as u64) <= most {
        Ok(text.to_vec(alloc)?)
    } else {
        Ok((&text[..most as usize]).to_vec(alloc)?)
    }
}

// What stands at a path, or the first bytes of it.
fn read_content<F: Files>(
    alloc: Global,
    files: &mut F,
    path: &str,
    used: Module,
) -> Result<Option<Vec<u8>>, FilesFault>
    ensures read { IsReadOf (F.held files.old) path.now used (F.reads files.old) (F.reads files.new) (answer_of vec_items result) }
    ensures same { F.held files.new ≡ F.held files.old }
    ensures cause { HasCause FilesFault.Failed (F.faults files.old) (F.faults files.new) result }
    ensures steady { StaysSteady (F.steady files.old) (F.steady files.new) (F.faults files.old) (F.faults files.new) }
{
    match used {
        Module::File(_) => files.read(path, MOST_READ),
        Module::Library(library) => match library_bytes(alloc, library, MOST_READ) {
            Ok(bytes) => Ok(Some(bytes)),
            Err(_) => Err(FilesFault::NoMemory),
        },
    }
}

// A refusal at a line of a file.
fn refused_at(file: u64, line: u64, kind: RefusalKind) -> LoadFault
    ensures { result ≡ LoadFault.Refused (refused_at file line kind) }
{
    LoadFault::Refused(Refusal {
        place: Place { file, line },
        kind,
    })
}

// What a fault of a file's text is.
fn text_fault(file: u64, fault: &ReadFault) -> LoadFault
    ensures { result ≡ text_fault file fault.now }
{
    match fault {
        ReadFault::NotUtf8(line) => refused_at(file, *line, RefusalKind::NotUtf8),
        ReadFault::BadToken(line) => refused_at(file, *line, RefusalKind::BadToken),
        ReadFault::IntRange(line) => refused_at(file, *line, RefusalKind::IntRange),
        ReadFault::Syntax(line) => refused_at(file, *line, RefusalKind::Syntax),
        ReadFault::TooDeep(line) => refused_at(file, *line, RefusalKind::TooDeep),
        ReadFault::OpRefused(line) => refused_at(file, *line, RefusalKind::OpRefused),
        ReadFault::NoEnd(line) => refused_at(file, *line, RefusalKind::NoEnd),
        ReadFault::NoMemory => LoadFault::NoMemory,
    }
}

// The unit that a text is, and the queue behind it.
fn read_text(
    alloc: Global,
    names: &mut Names,
    queue: Items<Member>,
    used: Module,
    own: &str,
    file: u64,
    bytes: &[u8],
) -> Result<LoadedFile, LoadFault>
    ensures ok { IfOk result (λ loaded. ReadsText names.old queue used own.now file bytes.now names.new loaded) }
    ensures err { IfErr result (TextFails names.old queue used own.now file bytes.now) }
    ensures some { IfOk result (λ loaded. file < length names.old → FromSource names.new queue used loaded) }
    ensures stops { IfErr result (StopsIn file) }
    ensures capacity { IfOk result (λ loaded. capacity loaded.queue ≡ capacity queue) }
    ensures kept { IsPrefix names.old names.new }
{
    match read_sentences(alloc, names, bytes) {
        Err(fault) => Err(text_fault(file, &fault)),
        Ok(source) => match file_read(alloc, names, used, own, file, source, queue)? {
            FileOutcome::Loaded(loaded) => Ok(loaded),
            FileOutcome::Wrong(wrong) => Err(refused_at(file, wrong.line, wrong.kind)),
        },
    }
}

// The same of the first bytes of a file, which tell whether it has too many.
fn read_front(
    alloc: Global,
    names: &mut Names,
    queue: Items<Member>,
    used: Module,
    own: &str,
    file: u64,
    bytes: &[u8],
) -> Result<LoadedFile, LoadFault>
    ensures ok { IfOk result (λ loaded. (whole : List ℕ) → bytes.now ≡ take most_read whole
        → (length whole ≤ size_limit) × ReadsText names.old queue used own.now file whole names.new loaded) }
    ensures some { IfOk result (λ loaded. file < length names.old → FromSource names.new queue used loaded) }
    ensures err { IfErr result (FrontFails names.old queue used own.now file bytes.now) }
    ensures stops { IfErr result (StopsIn file) }
    ensures capacity { IfOk result (λ loaded. capacity loaded.queue ≡ capacity queue) }
    ensures kept { IsPrefix names.old names.new }
{
    if bytes.len() <= SIZE_LIMIT {
        read_text(alloc, names, queue, used, own, file, bytes)
    } else {
        Err(refused_at(file, 0, RefusalKind::FileTooLarge))
    }
}

// The unit of a member of the queue, and the queue behind it.
fn load_file<F: Files>(
    alloc: Global,
    names: &mut Names,
    files: &mut F,
    folder: &str,
    member: Member,
    queue: Items<Member>,
) -> Result<LoadedFile, LoadFault>
    ensures asks { Asks (F.held files.old) folder.now names.old member.used (F.reads files.old) (F.reads files.new) result }
    ensures ok { IfOk result (λ loaded. (held : Held) → Agree (new_reads (F.reads files.old) (F.reads files.new)) held → ReadsFile held folder.now names.old queue member names.new loaded) }
    ensures err { IfErr result (FileFails (new_reads (F.reads files.old) (F.reads files.new)) folder.now names.old queue member names.new (Rose (F.faults files.old) (F.faults files.new))) }
    ensures last { IfErr result (TellsLast (new_reads (F.reads files.old) (F.reads files.new)) folder.now names.new) }
    ensures some { IfOk result (FromSource names.new queue member.used) }
    ensures named { member.place.file < length names.old → IfErr result (IsFaultInRange (length names.new)) }
    ensures capacity { IfOk result (λ loaded. capacity loaded.queue ≡ capacity queue) }
    ensures kept { IsPrefix names.old names.new }
    ensures same { F.held files.new ≡ F.held files.old }
    ensures later { F.faults files.old ≤ F.faults files.new }
    ensures steady { StaysSteady (F.steady files.old) (F.steady files.new) (F.faults files.old) (F.faults files.new) }
{
    let texts = texts_of(alloc, names, folder, member.used)?;
    let file = names.intern(texts.file.as_str())?;
    match read_content(alloc, files, texts.path.as_str(), member.used) {
        Err(FilesFault::Failed) => Err(LoadFault::Failed(file)),
        Err(FilesFault::NoMemory) => Err(LoadFault::NoMemory),
        Ok(None) => Err(LoadFault::Refused(Refusal {
            place: member.place,
            kind: RefusalKind::NoFile,
        })),
        Ok(Some(bytes)) => {
            let own = texts.own.as_str();
            read_front(alloc, names, queue, member.used, own, file, &bytes)
        }
    }
}

// The next of the queue.
fn member_at(queue: &[Member], at: usize) -> Option<Member>
    ensures { result ≡ slice_get queue.now at }
{
    match queue.get(at) {
        None => None,
        Some(member) => Some(*member),
    }
}

// The units of the queue.
fn load_all<F: Files>(
    alloc: Global,
    names: &mut Names,
    files: &mut F,
    folder: &str,
    queue: Items<Member>,
) -> Result<Items<Unit>, LoadFault>
    requires queue { IsQueue (length names.now) queue }
    requires some { 1 ≤ length queue }
    ensures ok { IfOk result (λ units. (held : Held) → Agree (new_reads (F.reads files.old) (F.reads files.new)) held → ReadsQueue held folder.now (progress_of names.old queue) names.new units) }
    ensures err { IfErr result (FailsFrom (new_reads (F.reads files.old) (F.reads files.new)) folder.now (progress_of names.old queue) names.new (Rose (F.faults files.old) (F.faults files.new))) }
    ensures order { (held : Held) → Agree (new_reads (F.reads files.old) (F.reads files.new)) held → ReadsInOrder held folder.now (progress_of names.old queue) result (new_reads (F.reads files.old) (F.reads files.new)) }
    ensures reads { F.reads files.new ≡ F.reads files.old ++ new_reads (F.reads files.old) (F.reads files.new) }
    ensures tell { ReadsTell (F.held files.old) (new_reads (F.reads files.old) (F.reads files.new)) }
    ensures in_range { MatchResult result (AreUnitsInRange (length names.new)) (IsFaultInRange (length names.new)) }
    ensures kept { IsPrefix names.old names.new }
    ensures same { F.held files.new ≡ F.held files.old }
    ensures later { F.faults files.old ≤ F.faults files.new }
    ensures steady { StaysSteady (F.steady files.old) (F.steady files.new) (F.faults files.old) (F.faults files.new) }
{
    // Each says what holds of all: of names, of terms in range.
    let _ = names.len(); // for the proof
    ranges_law(); // for the proof
    let mut waiting = queue;
    let mut units = Items::new(alloc);
    while let Some(member) = member_at(waiting.as_slice(), units.len()) {
        match load_file(alloc, names, files, folder, member, waiting) {
            Err(fault) => return Err(fault),
            Ok(loaded) => {
                let _ = names.len(); // for the proof
                waiting = loaded.queue;
                units.push(loaded.unit)?;
            }
        }
    }
    Ok(units)
}

// The queue at first: the main file alone.
fn first_queue(alloc: Global, names: &mut Names, main: &str) -> Result<Items<Member>, NoMemory>
    requires main { is_main_file main.now ≡ true }
    ensures queue { IfOk result (λ queue. queue ≡ start_queue names.old (base_of main.now)) }
    ensures names { OnOk result (names.new ≡ start_names names.old (base_of main.now)) }
    ensures in_range { IfOk result (IsQueue (length names.new)) }
    ensures some { IfOk result (λ queue. 1 ≤ length queue) }
    ensures kept { IsPrefix names.old names.new }
{
    let base = base_of(main);
    let name = names.intern(base)?;
    let text = file_of(alloc, base)?;
    let file = names.intern(text.as_str())?;
    let main = Member {
        used: Module::File(name),
        place: Place { file, line: 0 },
    };
    one(alloc, main)
}

/// The units that are reached from a main file, in the order in which files are first named.
///
/// # Errors
/// Where a file breaks a rule of the language, where one could not be read, and where memory is refused.
pub fn load_set<F: Files>(
    alloc: Global,
    names: &mut Names,
    files: &mut F,
    main: &str,
) -> Result<Items<Unit>, LoadFault>
    requires main { is_main_file main.now ≡ true }
    ensures loaded { IfOk result (λ units. (held : Held) → Agree (new_reads (F.reads files.old) (F.reads files.new)) held → IsLoaded held main.now names.old names.new units) }
    ensures fault { IfErr result (IsLoadFault (new_reads (F.reads files.old) (F.reads files.new)) main.now names.old names.new (Rose (F.faults files.old) (F.faults files.new))) }
    ensures order { (held : Held) → Agree (new_reads (F.reads files.old) (F.reads files.new)) held → AreLoadReads held main.now names.old result (new_reads (F.reads files.old) (F.reads files.new)) }
    ensures reads { F.reads files.new ≡ F.reads files.old ++ new_reads (F.reads files.old) (F.reads files.new) }
    ensures tell { ReadsTell (F.held files.old) (new_reads (F.reads files.old) (F.reads files.new)) }
    ensures in_range { MatchResult result (AreUnitsInRange (length names.new)) (IsFaultInRange (length names.new)) }
    ensures kept { IsPrefix names.old names.new }
    ensures same { F.held files.new ≡ F.held files.old }
    ensures later { F.faults files.old ≤ F.faults files.new }
    ensures steady { StaysSteady (F.steady files.old) (F.steady files.new) (F.faults files.old) (F.faults files.new) }
{
    let queue = first_queue(alloc, names, main)?;
    load_all(alloc, names, files, folder_of(main), queue)
}
