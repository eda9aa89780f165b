//! What a command says by the words behind its name, or their first fault, from the left.
ghost use Rattle.std.specs.Prelude.{◌≡◌, ◌<◌, length};
ghost use Rattle.em_text.specs.Numbers.{decimal_number};
ghost use Rattle.em_text.specs.Words.{words_of};
ghost use Rattle.em_line.specs.Grammar.{turns_form};
ghost use Rattle.em_prompt.specs.Kept.{behind_text};
ghost use Rattle.em_prompt.specs.Typed.{plain as plain_typed};
ghost use Rattle.em_prompt.specs.Value.{file_so, read_so, read_with, watch_read_with};
ghost use Rattle.em_prompt.specs.Says.{accesses_of, mark_of, matter_in, plain, why_of, wrote_of};
ghost use Rattle.em_prompt.specs.Says.{arrive_of, auto_of, bench, changes_of, effect_of, file_in, frame_line, frame_of};
ghost use Rattle.em_prompt.specs.Says.{goto_of, help_of, history_of, lines_from, line_or_changes, link_of, list_of, look_of, mac_of, memory_of};
ghost use Rattle.em_prompt.specs.Says.{move_of, moves_by, moves_to, next_of, number_if, peek_of, plan_of, poke_of, read_of, recv_of, ring_of};
ghost use Rattle.em_prompt.specs.Says.{run_of, says, send_of, until_of, warnings_by, warnings_of, watch_at, watched_address, which_if, who_of, write_of};

use crate::bench_line::BenchLine;
use crate::command::Command;
use crate::fault::Fault;
use crate::kept::KeptWords;
use crate::kind::{Choice, Kind};
use crate::number::Number;
use crate::register::named;
use crate::told::without_blanks;
use crate::typed::{Lines, Matter, Shown, Side, Typed, Until, Which};
use crate::value::{
    address_in, begins_with_letter, command_in, data_in, ethernet_in, frame_len_in, known_in,
    last_line_in, name_in, offset_in, phy_word_in, shown_address_in, side_in, switch_in, target_in,
    value_in, watch_in, way_in, which_in,
};
use crate::watch::{Watch, is_phy};
use crate::watched_len::WatchedLen;
use crate::word::hex_address_in;
use crate::words::{alone, next};
use em_line::turns_form;
use em_regs::Profile;
use em_text::{Words, decimal_number, is_name};

/// Which way a move goes.
#[derive(Clone, Copy)]
enum Way {
    Back,
    Forward,
}

impl Way {
    ghost use Rattle.std.specs.Prelude.{◌≡◌};
    ghost use Rattle.em_prompt.specs.Typed.{plain as plain_typed};
    ghost use Rattle.em_prompt.specs.Says.{moves_by, moves_to};

    /// So many events this way.
    fn by(self, count: u32) -> Typed<'static>
        ensures { plain_typed result ≡ moves_by self count }
    {
        match self {
            Way::Back => Typed::Back(count),
            Way::Forward => Typed::Forward(count),
        }
    }

    /// To a line.
    fn to(self, line: u32) -> Typed<'static>
        ensures { plain_typed result ≡ moves_to self line }
    {
        match self {
            Way::Back => Typed::BackTo(line),
            Way::Forward => Typed::ForwardTo(line),
        }
    }
}

/// What a command says by the words behind its name; names of registers are those of a profile.
#[rattlefmt::skip]
pub(crate) fn says<'a>(profile: Profile, command: Command, words: Words<'a>) -> Result<Typed<'a>, Fault<'a>>
    requires { length (words_of words.0.now) < 0x1_0000_0000 }
    ensures { plain result ≡ says profile command words.entry.0.now }
{
    match command {
        Command::Read => read_of(profile, words),
        Command::Write => write_of(profile, words),
        Command::Poke => poke_of(words),
        Command::Peek => peek_of(words),
        Command::Arrive => arrive_of(words),
        Command::Link => link_of(words),
        Command::Send => send_of(words),
        Command::Recv => recv_of(words),
        Command::Mac => mac_of(words),
        Command::Turns => plan_of(words),
        Command::Rx | Command::Tx | Command::Bench(_) | Command::Init | Command::Stats =>
            alone(bench(command, KeptWords::None), words),
        Command::Look => look_of(profile, words),
        Command::Who => who_of(profile, words),
        Command::Back => move_of(Way::Back, words),
        Command::Forward => move_of(Way::Forward, words),
        Command::Goto => goto_of(words),
        Command::Mark => mark_of(words),
        Command::Marks => alone(Typed::Show(Shown::Marks), words),
        Command::Next => next_of(words),
        Command::Run => run_of(profile, words),
        Command::Load => Ok(Typed::Load(file_in(words)?)),
        Command::Save => Ok(Typed::Save(file_in(words)?)),
        Command::SaveOver => Ok(Typed::SaveOver(file_in(words)?)),
        Command::Pcap => Ok(Typed::Pcap(file_in(words)?)),
        Command::PcapOver => Ok(Typed::PcapOver(file_in(words)?)),
        Command::List => list_of(words),
        Command::History => history_of(words),
        Command::Accesses => accesses_of(profile, words),
        Command::Effect => effect_of(words),
        Command::Ring => ring_of(words),
        Command::Frame => frame_of(words),
        Command::Memory => memory_of(words),
        Command::Why => why_of(words),
        Command::Warnings => warnings_of(words),
        Command::Auto => auto_of(words),
        Command::Help => help_of(words),
        Command::Quit => alone(Typed::Quit, words),
    }
}

/// A line of em_bench's.
fn bench<'a>(command: Command, words: KeptWords<'a>) -> Typed<'a>
    ensures { plain_typed result ≡ bench command (behind_text words.entry) }
{
    Typed::Line(BenchLine { command, words })
}

// ---- em_bench's lines

/// r OFF
fn read_of<'a>(profile: Profile, mut words: Words<'a>) -> Result<Typed<'a>, Fault<'a>>
    ensures { plain result ≡ read_of profile (words_of words.entry.0.now) }
{
    let offset = offset_in(profile, next(&mut words, Kind::Register)?)?;
    alone(bench(Command::Read, KeptWords::One(offset.kept)), words)
}

/// w OFF VAL
fn write_of<'a>(profile: Profile, mut words: Words<'a>) -> Result<Typed<'a>, Fault<'a>>
    ensures { plain result ≡ write_of profile (words_of words.entry.0.now) }
{
    let offset = offset_in(profile, next(&mut words, Kind::Register)?)?;
    let value = value_in(offset.reg, next(&mut words, Kind::Value)?)?;
    alone(
        bench(Command::Write, KeptWords::Two(offset.kept, value)),
        words,
    )
}

/// poke ADDR DATA
fn poke_of<'a>(mut words: Words<'a>) -> Result<Typed<'a>, Fault<'a>>
    ensures { plain result ≡ poke_of (words_of words.entry.0.now) }
{
    let address = address_in(next(&mut words, Kind::Address)?)?;
    let data = data_in(next(&mut words, Kind::Data)?)?;
    alone(bench(Command::Poke, KeptWords::Two(address, data)), words)
}

/// peek ADDR LEN
fn peek_of<'a>(mut words: Words<'a>) -> Result<Typed<'a>, Fault<'a>>
    ensures { plain result ≡ peek_of (words_of words.entry.0.now) }
{
    let address = address_in(next(&mut words, Kind::Address)?)?;
    let len = Number::Peeked.kept(next(&mut words, Kind::Number(Number::Peeked))?)?;
    alone(bench(Command::Peek, KeptWords::Two(address, len)), words)
}

/// arrive DATA, arrive DATA LEN, arrive next, arrive all
fn arrive_of<'a>(mut words: Words<'a>) -> Result<Typed<'a>, Fault<'a>>
    ensures { plain result ≡ arrive_of (words_of words.entry.0.now) }
{
    let word = next(&mut words, Kind::Data)?;
    if is_name(word, b"next") {
        return alone(Typed::ArriveNext, words);
    }
    if is_name(word, b"all") {
        return alone(Typed::ArriveAll, words);
    }
    frame_line(Command::Arrive, word, words)
}

/// send DATA, send DATA LEN
fn send_of<'a>(mut words: Words<'a>) -> Result<Typed<'a>, Fault<'a>>
    ensures { plain result ≡ send_of (words_of words.entry.0.now) }
{
    let word = next(&mut words, Kind::Data)?;
    frame_line(Command::Send, word, words)
}

/// A line that brings DATA, or DATA and LEN.
fn frame_line<'a>(
    command: Command,
    word: &'a [u8],
    mut words: Words<'a>,
) -> Result<Typed<'a>, Fault<'a>>
    ensures { plain result ≡ frame_line command word.now (words_of words.entry.0.now) }
{
    let data = data_in(word)?;
    match words.next() {
        None => Ok(bench(command, KeptWords::One(data))),
        Some(len) => {
            let len = frame_len_in(word, len)?;
            alone(bench(command, KeptWords::Two(data, len)), words)
        }
    }
}

/// link up, link down
fn link_of<'a>(mut words: Words<'a>) -> Result<Typed<'a>, Fault<'a>>
    ensures { plain result ≡ link_of (words_of words.entry.0.now) }
{
    let way = way_in(next(&mut words, Kind::Choice(Choice::Way))?)?;
    alone(bench(Command::Link, KeptWords::One(way)), words)
}

/// recv N
fn recv_of<'a>(mut words: Words<'a>) -> Result<Typed<'a>, Fault<'a>>
    ensures { plain result ≡ recv_of (words_of words.entry.0.now) }
{
    let most = Number::Packets.kept(next(&mut words, Kind::Number(Number::Packets))?)?;
    alone(bench(Command::Recv, KeptWords::One(most)), words)
}

/// mac, mac DATA
fn mac_of<'a>(mut words: Words<'a>) -> Result<Typed<'a>, Fault<'a>>
    ensures { plain result ≡ mac_of (words_of words.entry.0.now) }
{
    match words.next() {
        None => Ok(bench(Command::Mac, KeptWords::None)),
        Some(word) => {
            let address = ethernet_in(word)?;
            alone(bench(Command::Mac, KeptWords::One(address)), words)
        }
    }
}

/// turns WORD ..: em_bench has to read it.
fn plan_of<'a>(words: Words<'a>) -> Result<Typed<'a>, Fault<'a>>
    requires { length (words_of words.0.now) < 0x1_0000_0000 }
    ensures { plain result ≡ plan_of words.entry.0.now (words_of words.entry.0.now)
        (turns_form (words_of words.entry.0.now)) }
{
    if words.is_over() {
        return Err(Fault::Missing(Kind::Turn));
    }
    match turns_form(words) {
        Some(_) => Ok(bench(Command::Turns, KeptWords::Rest(words.0))),
        None => Err(Fault::No(Kind::Turn)),
    }
}

// ---- the debugger's own

/// The number that stands there, if a word does.
fn number_if<'a>(words: &mut Words<'a>, number: Number) -> Result<Option<u32>, Fault<'a>>
    ensures { read_with result (words_of words.new.0.now) ≡ number_if number (words_of words.old.0.now) }
{
    match words.next() {
        None => Ok(None),
        Some(word) => Ok(Some(number.of(word)?)),
    }
}

/// look NAME, look OFF
fn look_of<'a>(profile: Profile, mut words: Words<'a>) -> Result<Typed<'a>, Fault<'a>>
    ensures { plain result ≡ look_of profile (words_of words.entry.0.now) }
{
    let reg = known_in(profile, next(&mut words, Kind::Known)?)?;
    alone(Typed::Show(Shown::Look(reg)), words)
}

/// who again, who wrote NAME, who wrote OFF, who WATCH, who WATCH again, who WATCH all
fn who_of<'a>(profile: Profile, mut words: Words<'a>) -> Result<Typed<'a>, Fault<'a>>
    ensures { plain result ≡ who_of profile (words_of words.entry.0.now) }
{
    let word = next(&mut words, Kind::Watch)?;
    if is_name(word, b"again") {
        return alone(Typed::WhoAgain, words);
    }
    if is_name(word, b"wrote") {
        return wrote_of(profile, words);
    }
    let watch = watch_at(profile, word, &mut words)?;
    let which = which_if(&mut words)?;
    alone(Typed::Who(watch, which), words)
}

/// NAME, or OFF, behind `who wrote`
fn wrote_of<'a>(profile: Profile, mut words: Words<'a>) -> Result<Typed<'a>, Fault<'a>>
    ensures { plain result ≡ wrote_of profile (words_of words.entry.0.now) }
{
    let reg = known_in(profile, next(&mut words, Kind::Known)?)?;
    alone(Typed::Show(Shown::Wrote(reg)), words)
}

/// WATCH, which begins with a word: PHY N, ADDR LEN, or that word alone.
fn watch_at<'a>(profile: Profile, word: &'a [u8], words: &mut Words<'a>) -> Result<Watch, Fault<'a>>
    ensures { watch_read_with result (words_of words.new.0.now) ≡ watch_at profile word.now (words_of words.old.0.now) }
{
    if is_phy(word) {
        let number = phy_word_in(next(words, Kind::Number(Number::Word))?)?;
        return Ok(Watch::Phy(number));
    }
    let Some(address) = watched_address(profile, word) else {
        return watch_in(profile, word);
    };
    let len = WatchedLen::of(next(words, Kind::Number(Number::Watched))?)?;
    Ok(Watch::Octets(address, len))
}

/// The address that a word writes which begins WATCH; none where it names a register by letters that are digits too.
fn watched_address(profile: Profile, word: &[u8]) -> Option<u64>
    ensures { result ≡ watched_address profile word.now }
{
    match named(profile, word) {
        Some(_) => None,
        None => hex_address_in(word),
    }
}

/// again, all, or no word
fn which_if<'a>(words: &mut Words<'a>) -> Result<Which, Fault<'a>>
    ensures { read_with result (words_of words.new.0.now) ≡ which_if (words_of words.old.0.now) }
{
    match words.next() {
        None => Ok(Which::Newest),
        Some(word) => which_in(word),
    }
}

/// back, back N, back to LINE; and forward so
fn move_of<'a>(way: Way, mut words: Words<'a>) -> Result<Typed<'a>, Fault<'a>>
    ensures { plain result ≡ move_of way (words_of words.entry.0.now) }
{
    match words.next() {
        None => Ok(way.by(1)),
        Some(word) if is_name(word, b"to") => {
            let line = Number::Line.of(next(&mut words, Kind::Number(Number::Line))?)?;
            alone(way.to(line), words)
        }
        Some(word) => {
            let count = Number::Count.of(word)?;
            alone(way.by(count), words)
        }
    }
}

/// goto EVENT, goto NAME
fn goto_of<'a>(mut words: Words<'a>) -> Result<Typed<'a>, Fault<'a>>
    ensures { plain result ≡ goto_of (words_of words.entry.0.now) }
{
    let word = next(&mut words, Kind::Number(Number::Event))?;
    if begins_with_letter(word) {
        return alone(Typed::GotoMark(word), words);
    }
    let event = Number::Event.of(word)?;
    alone(Typed::Goto(event), words)
}

/// mark NAME
fn mark_of<'a>(mut words: Words<'a>) -> Result<Typed<'a>, Fault<'a>>
    ensures { plain result ≡ mark_of (words_of words.entry.0.now) }
{
    let name = name_in(next(&mut words, Kind::Name)?)?;
    alone(Typed::Mark(name), words)
}

/// next, next N
fn next_of<'a>(mut words: Words<'a>) -> Result<Typed<'a>, Fault<'a>>
    ensures { plain result ≡ next_of (words_of words.entry.0.now) }
{
    match words.next() {
        None => Ok(Typed::Next(1)),
        Some(word) => {
            let count = Number::Count.of(word)?;
            alone(Typed::Next(count), words)
        }
    }
}

/// run, or run until ..
fn run_of<'a>(profile: Profile, mut words: Words<'a>) -> Result<Typed<'a>, Fault<'a>>
    ensures { plain result ≡ run_of profile (words_of words.entry.0.now) }
{
    match words.next() {
        None => Ok(Typed::Run),
        Some(word) if is_name(word, b"until") => until_of(profile, words),
        Some(_) => Err(Fault::No(Kind::Choice(Choice::Until))),
    }
}

/// refused, dropped, differs, warning, LINE, or WATCH changes
fn until_of<'a>(profile: Profile, mut words: Words<'a>) -> Result<Typed<'a>, Fault<'a>>
    ensures { plain result ≡ until_of profile (words_of words.entry.0.now) }
{
    let word = next(&mut words, Kind::Watch)?;
    if is_name(word, b"refused") {
        return alone(Typed::RunUntil(Until::Refused), words);
    }
    if is_name(word, b"dropped") {
        return alone(Typed::RunUntil(Until::Dropped), words);
    }
    if is_name(word, b"differs") {
        return alone(Typed::RunUntil(Until::Differs), words);
    }
    if is_name(word, b"warning") {
        return alone(Typed::RunUntil(Until::Warning), words);
    }
    line_or_changes(profile, word, words)
}

/// LINE, alone, or WATCH changes
fn line_or_changes<'a>(
    profile: Profile,
    word: &'a [u8],
    words: Words<'a>,
) -> Result<Typed<'a>, Fault<'a>>
    ensures { plain result ≡ line_or_changes profile (decimal_number word.now) word.now (words_of words.entry.0.now) }
{
    let Some(line) = decimal_number(word) else {
        return changes_of(profile, word, words);
    };
    let mut others = words;
    match others.next() {
        None => Ok(Typed::RunUntil(Until::Line(Number::Line.within(line)?))),
        Some(_) => changes_of(profile, word, words),
    }
}

/// WATCH changes, where WATCH begins with this word
fn changes_of<'a>(
    profile: Profile,
    word: &'a [u8],
    mut words: Words<'a>,
) -> Result<Typed<'a>, Fault<'a>>
    ensures { plain result ≡ changes_of profile word.now (words_of words.entry.0.now) }
{
    let watch = watch_at(profile, word, &mut words)?;
    let behind = next(&mut words, Kind::Choice(Choice::Changes))?;
    if !is_name(behind, b"changes") {
        return Err(Fault::No(Kind::Choice(Choice::Changes)));
    }
    alone(Typed::RunUntil(Until::Changes(watch)), words)
}

/// FILE: all that stands there, without the blanks around it
fn file_in<'a>(words: Words<'a>) -> Result<&'a [u8], Fault<'a>>
    ensures { file_so result ≡ file_in words.entry.0.now (words_of words.entry.0.now) }
{
    if words.is_over() {
        Err(Fault::Missing(Kind::File))
    } else {
        Ok(without_blanks(words.0))
    }
}

/// list, list LINE, list LINE LAST
fn list_of<'a>(mut words: Words<'a>) -> Result<Typed<'a>, Fault<'a>>
    ensures { plain result ≡ list_of (words_of words.entry.0.now) }
{
    match words.next() {
        None => Ok(Typed::Show(Shown::List(Lines::Here))),
        Some(word) => {
            let line = Number::Line.of(word)?;
            lines_from(line, words)
        }
    }
}

/// LINE alone, or LINE LAST
fn lines_from<'a>(line: u32, mut words: Words<'a>) -> Result<Typed<'a>, Fault<'a>>
    ensures { plain result ≡ lines_from line (words_of words.entry.0.now) }
{
    match words.next() {
        None => Ok(Typed::Show(Shown::List(Lines::Around(line)))),
        Some(word) => {
            let last = last_line_in(line, word)?;
            alone(Typed::Show(Shown::List(Lines::Between(line, last))), words)
        }
    }
}

/// history, history N
fn history_of<'a>(mut words: Words<'a>) -> Result<Typed<'a>, Fault<'a>>
    ensures { plain result ≡ history_of (words_of words.entry.0.now) }
{
    let most = number_if(&mut words, Number::Count)?;
    alone(Typed::Show(Shown::History(most)), words)
}

/// accesses NAME, accesses ADDR, and N behind that
fn accesses_of<'a>(profile: Profile, mut words: Words<'a>) -> Result<Typed<'a>, Fault<'a>>
    ensures { plain result ≡ accesses_of profile (words_of words.entry.0.now) }
{
    let target = target_in(profile, next(&mut words, Kind::Target)?)?;
    let most = number_if(&mut words, Number::Count)?;
    alone(Typed::Show(Shown::Accesses(target, most)), words)
}

/// effect, effect EVENT
fn effect_of<'a>(mut words: Words<'a>) -> Result<Typed<'a>, Fault<'a>>
    ensures { plain result ≡ effect_of (words_of words.entry.0.now) }
{
    let event = number_if(&mut words, Number::Event)?;
    alone(Typed::Show(Shown::Effect(event)), words)
}

/// ring rx, ring tx
fn ring_of<'a>(mut words: Words<'a>) -> Result<Typed<'a>, Fault<'a>>
    ensures { plain result ≡ ring_of (words_of words.entry.0.now) }
{
    let side = side_in(next(&mut words, Kind::Choice(Choice::Side))?)?;
    alone(Typed::Show(Shown::Ring(side)), words)
}

/// frame, frame I
fn frame_of<'a>(mut words: Words<'a>) -> Result<Typed<'a>, Fault<'a>>
    ensures { plain result ≡ frame_of (words_of words.entry.0.now) }
{
    let index = number_if(&mut words, Number::Index)?;
    alone(Typed::Show(Shown::Frame(index)), words)
}

/// memory ADDR LEN
fn memory_of<'a>(mut words: Words<'a>) -> Result<Typed<'a>, Fault<'a>>
    ensures { plain result ≡ memory_of (words_of words.entry.0.now) }
{
    let address = shown_address_in(next(&mut words, Kind::Address)?)?;
    let len = Number::Peeked.of(next(&mut words, Kind::Number(Number::Peeked))?)?;
    alone(Typed::Show(Shown::Memory(address, len)), words)
}

/// why, why rx, why tx, why line, why dropped, why LINE
fn why_of<'a>(mut words: Words<'a>) -> Result<Typed<'a>, Fault<'a>>
    ensures { plain result ≡ why_of (words_of words.entry.0.now) }
{
    match words.next() {
        None => Ok(Typed::Show(Shown::Why(Matter::Newest))),
        Some(word) => {
            let matter = matter_in(word)?;
            alone(Typed::Show(Shown::Why(matter)), words)
        }
    }
}

/// rx, tx, line, dropped, LINE
fn matter_in(word: &[u8]) -> Result<Matter, Fault<'_>>
    ensures { read_so result ≡ matter_in word.now }
{
    if is_name(word, b"rx") {
        return Ok(Matter::Step(Side::Receive));
    }
    if is_name(word, b"tx") {
        return Ok(Matter::Step(Side::Transmit));
    }
    if is_name(word, b"line") {
        return Ok(Matter::Interrupt);
    }
    if is_name(word, b"dropped") {
        return Ok(Matter::Dropped);
    }
    match decimal_number(word) {
        Some(number) => Ok(Matter::Line(Number::Line.within(number)?)),
        None => Err(Fault::No(Kind::Choice(Choice::Matter))),
    }
}

/// warnings, warnings on, warnings off, warnings RULE
fn warnings_of<'a>(mut words: Words<'a>) -> Result<Typed<'a>, Fault<'a>>
    ensures { plain result ≡ warnings_of (words_of words.entry.0.now) }
{
    match words.next() {
        None => Ok(Typed::Show(Shown::Warnings)),
        Some(word) => alone(warnings_by(word), words),
    }
}

/// on, off, or RULE
fn warnings_by(word: &[u8]) -> Typed<'_>
    ensures { plain_typed result ≡ warnings_by word.now }
{
    if is_name(word, b"on") {
        return Typed::Warnings(true);
    }
    if is_name(word, b"off") {
        return Typed::Warnings(false);
    }
    Typed::WarningsOf(word)
}

/// auto on, auto off
fn auto_of<'a>(mut words: Words<'a>) -> Result<Typed<'a>, Fault<'a>>
    ensures { plain result ≡ auto_of (words_of words.entry.0.now) }
{
    let on = switch_in(next(&mut words, Kind::Choice(Choice::Switch))?)?;
    alone(Typed::Auto(on), words)
}

/// help, help COMMAND
fn help_of<'a>(mut words: Words<'a>) -> Result<Typed<'a>, Fault<'a>>
    ensures { plain result ≡ help_of (words_of words.entry.0.now) }
{
    match words.next() {
        None => Ok(Typed::Show(Shown::Help(None))),
        Some(word) => {
            let command = command_in(word)?;
            alone(Typed::Show(Shown::Help(Some(command))), words)
        }
    }
}
