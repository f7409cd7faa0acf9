//! A row: what is given, and what has to come of it.

use crate::bytes::{Names, put_times};
use crate::frames::{Fields, Head, INTERIM, REPLY, head_of, joined, patch, reply, request};
use crate::requests::act_of;
use crate::story::is_word;
use crate::words::{count, cut, hex32, hex64, medium, nothing, number, small};
use anyhow::{Result, bail, ensure};
use share_box::{Turn, TurnList};
use smb_base::U64List;
use std::alloc::Global;

/// What stands on the other side.
#[derive(Clone, Copy, PartialEq, Eq)]
pub enum Side {
    /// Nothing is said of it.
    None,
    /// A peer that gives bytes, whose first connects fail, as many as it is told.
    Peer(u32),
    /// A share, with so much room, the folding of names, and so many credits in each reply.
    Share(u64, bool, u16),
    /// No connection: the states of a mount alone, in place of the session with this number.
    Mount(u64),
    /// No connection: replies alone, of which each says something.
    Says,
}

/// A step of a peer, of the one who uses a share's link, or of a mount.
#[derive(Drop)]
pub enum Step {
    /// Bytes come.
    Got(Vec<u8>),
    /// Nothing comes for a while.
    Quiet,
    /// The connection ends.
    Cut,
    /// A connect.
    Connect,
    /// These bytes are sent.
    Send(Vec<u8>),
    /// A frame is received, or what comes in its place.
    Receive,
    /// The mark at the end of a script.
    Over,
}

/// What is wanted beside the expected lines. What is not said is not looked at.
#[derive(Drop)]
pub struct Wanted {
    /// The expected lines.
    pub text: Vec<u8>,
    /// The exit status.
    pub status: Option<u64>,
    /// The frames that are sent, each as the commands of its messages.
    pub sent: Option<Vec<Vec<u16>>>,
    /// How many connects are tried.
    pub connects: Option<u64>,
    /// Frames that are sent, by their numbers from 1 on.
    pub frames: Vec<(u64, Vec<u8>)>,
    /// How many frames are announced for a line.
    pub marks: Vec<(u64, u64)>,
    /// Whether a mount tells its requests.
    pub requests: bool,
    /// The words of the events of a run that are told, where its story is; all events are told where there is no word.
    pub story: Option<Vec<String>>,
}

/// What a row says.
#[derive(Drop)]
pub struct Row {
    alloc: Global,
    /// The other side.
    pub side: Side,
    /// The words of the command line, where there are any.
    pub words: Option<Vec<String>>,
    /// The script.
    pub script: Vec<u8>,
    /// How many bytes of the script one read gives at most.
    pub reads: usize,
    /// The numbers of the reads that fail.
    pub fail_read: U64List,
    /// The numbers of the writes that fail.
    pub fail_write: U64List,
    /// The readings of the clock.
    pub clock: U64List,
    /// The turns of a share.
    pub turns: TurnList,
    /// The steps.
    pub steps: Vec<Step>,
    /// In how many bytes at most they come, once for each number.
    pub pieces: Vec<usize>,
    /// The path of the share that a mount is for.
    pub path: String,
    /// What is wanted.
    pub wanted: Wanted,
    head: Head,
}

impl Row {
    /// A row that says nothing so far.
    pub fn new(alloc: Global) -> Result<Row> {
        Ok(Row {
            alloc,
            side: Side::None,
            words: None,
            script: Vec::new(alloc),
            reads: usize::MAX,
            fail_read: U64List::of(alloc, &[])?,
            fail_write: U64List::of(alloc, &[])?,
            clock: U64List::of(alloc, &[])?,
            turns: TurnList::new(alloc),
            steps: Vec::new(alloc),
            pieces: Vec::new(alloc),
            path: String::new(alloc),
            wanted: Wanted {
                text: Vec::new(alloc),
                status: None,
                sent: None,
                connects: None,
                frames: Vec::new(alloc),
                marks: Vec::new(alloc),
                requests: false,
                story: None,
            },
            head: [0; 64],
        })
    }

    /// The turns of a share, of which none is left then.
    pub fn take_turns(&mut self) -> TurnList {
        std::mem::replace(&mut self.turns, TurnList::new(self.alloc))
    }

    /// Takes a line that says what is given. It answers `false` where the line is none.
    pub fn given(&mut self, names: &Names, line: &str) -> Result<bool> {
        let (word, rest) = cut(line);
        if self.outside(names, word, rest)? || self.sides(word, rest)? || self.turned(word, rest)? {
            return Ok(true);
        }
        self.happens(names, word, rest)
    }

    /// The words, the script, the clock and the pieces.
    fn outside(&mut self, names: &Names, word: &str, rest: &str) -> Result<bool> {
        match word {
            "words" => self.add_words(rest)?,
            "word" => self.add_word(rest)?,
            "letters" => {
                let bytes = names.bytes(self.alloc, rest)?;
                self.add_letters(&bytes)?;
            }
            "script" => {
                self.script.extend_from_slice(rest.as_bytes())?;
                self.script.push(b'\n')?;
            }
            "no-script" => {
                nothing(rest)?;
                self.script.clear();
            }
            "text" => self.script.extend_from_slice(rest.as_bytes())?,
            "repeat" => {
                let (times, text) = cut(rest);
                put_times(text.as_bytes(), count(times)?, &mut self.script)?;
            }
            "input" => {
                let bytes = names.bytes(self.alloc, rest)?;
                self.script.extend_from_slice(&bytes)?;
            }
            "fail-read" => self.fail_read = numbers(self.alloc, rest)?,
            "fail-write" => self.fail_write = numbers(self.alloc, rest)?,
            "clock" => self.clock = numbers(self.alloc, rest)?,
            "pieces" => self.add_pieces(rest)?,
            "reads" => self.reads = count(rest)?,
            _ => return Ok(false),
        }
        Ok(true)
    }

    fn add_words(&mut self, rest: &str) -> Result<()> {
        self.words = Some(Vec::new(self.alloc));
        for word in rest.split_whitespace() {
            self.add_word(word)?;
        }
        Ok(())
    }

    /// One more word of the command line.
    fn add_word(&mut self, word: &str) -> Result<()> {
        let word = String::from_str(self.alloc, word)?;
        let Some(words) = &mut self.words else {
            bail!("no words before it");
        };
        words.push(word)?;
        Ok(())
    }

    /// These letters behind the last word.
    fn add_letters(&mut self, bytes: &[u8]) -> Result<()> {
        let Ok(text) = str::from_utf8(bytes) else {
            bail!("letters that are none");
        };
        match &mut self.words {
            Some(words) => match words.last_mut() {
                Some(word) => word.push_str(text)?,
                None => bail!("no word before them"),
            },
            None => bail!("no words before them"),
        }
        Ok(())
    }

    fn add_pieces(&mut self, rest: &str) -> Result<()> {
        self.pieces.clear();
        for word in rest.split_whitespace() {
            let size = count(word)?;
            ensure!(1 <= size && size <= 65_536, "pieces of 1 to 65536 bytes");
            self.pieces.push(size)?;
        }
        Ok(())
    }

    /// The other side.
    fn sides(&mut self, word: &str, rest: &str) -> Result<bool> {
        match word {
            "peer" => {
                self.side = Side::Peer(0);
                self.steps.clear();
                nothing(rest)?;
            }
            "refuse" => match self.side {
                Side::Peer(_) => self.side = Side::Peer(medium(rest)?),
                _ => bail!("no peer before it"),
            },
            "box" => {
                self.side = share_of(rest)?;
                self.steps.clear();
                self.turns = TurnList::new(self.alloc);
            }
            "says" => {
                self.side = Side::Says;
                self.steps.clear();
                nothing(rest)?;
            }
            "mount" => {
                let (previous, path) = cut(rest);
                self.side = Side::Mount(hex64(previous)?);
                self.path = String::from_str(self.alloc, path)?;
            }
            _ => return Ok(false),
        }
        Ok(true)
    }

    /// The turns of a share.
    fn turned(&mut self, word: &str, rest: &str) -> Result<bool> {
        match word {
            "turns" => {
                for turn in rest.split_whitespace() {
                    self.add_turns(turn)?;
                }
            }
            "serve" => self.add_serves(rest)?,
            "act" => self.turns.push(act_of(self.alloc, rest)?)?,
            _ => return Ok(false),
        }
        Ok(true)
    }

    /// The turn with this name, or of `NAME*N` N of them.
    fn add_turns(&mut self, word: &str) -> Result<()> {
        let (name, times) = repeated(word)?;
        for _ in 0..times {
            self.turns.push(turn_of(name)?)?;
        }
        Ok(())
    }

    /// The turn that serves the frame with this number, or of `NUMBER*N` N of them.
    fn add_serves(&mut self, word: &str) -> Result<()> {
        let (number, times) = repeated(word)?;
        let number = medium(number)?;
        for _ in 0..times {
            self.turns.push(Turn::Serve(number))?;
        }
        Ok(())
    }

    /// What happens at the link, in its order.
    fn happens(&mut self, names: &Names, word: &str, rest: &str) -> Result<bool> {
        match word {
            "head" => self.head = head_of(&names.bytes(self.alloc, rest)?)?,
            "credits" => self.head[14..16].copy_from_slice(&small(rest)?.to_le_bytes()),
            "connect" => self.step(Step::Connect, rest)?,
            "receive" => self.step(Step::Receive, rest)?,
            "over" => self.step(Step::Over, rest)?,
            "send" => {
                let bytes = names.bytes(self.alloc, rest)?;
                self.steps.push(Step::Send(bytes))?;
            }
            "ask" => {
                let frame = self.asked(names, rest)?;
                self.steps.push(Step::Send(frame))?;
            }
            "patch" => self.patch(names, rest)?,
            "join" => self.join(rest)?,
            _ => return self.comes(names, word, rest),
        }
        Ok(true)
    }

    fn step(&mut self, step: Step, rest: &str) -> Result<()> {
        nothing(rest)?;
        self.steps.push(step)?;
        Ok(())
    }

    /// What comes: a peer gives it, and of a share it is wanted.
    fn comes(&mut self, names: &Names, word: &str, rest: &str) -> Result<bool> {
        match word {
            "got" => {
                let bytes = names.bytes(self.alloc, rest)?;
                self.come(bytes)?;
            }
            "reply" => {
                let frame = self.replied(names, rest)?;
                self.come(frame)?;
            }
            "interim" => {
                let frame = self.put_off(names, rest)?;
                self.come(frame)?;
            }
            "quiet" => self.come_quiets(rest)?,
            "cut" => self.come_cut(rest)?,
            _ => return Ok(false),
        }
        Ok(true)
    }

    fn come(&mut self, bytes: Vec<u8>) -> Result<()> {
        match self.side {
            Side::Share(_, _, _) => {
                self.wanted.text.extend_from_slice(b"got ")?;
                let digits = hex::encode_upper(self.alloc, &bytes)?;
                self.wanted
                    .text
                    .extend_from_slice(digits.as_str().as_bytes())?;
                self.wanted.text.push(b'\n')?;
            }
            _ => self.steps.push(Step::Got(bytes))?,
        }
        Ok(())
    }

    fn come_quiets(&mut self, rest: &str) -> Result<()> {
        let times = if rest.is_empty() { 1 } else { count(rest)? };
        ensure!(times <= 100_000, "{times} times are too many");
        for _ in 0..times {
            match self.side {
                Side::Share(_, _, _) => self.wanted.text.extend_from_slice(b"quiet\n")?,
                _ => self.steps.push(Step::Quiet)?,
            }
        }
        Ok(())
    }

    fn come_cut(&mut self, rest: &str) -> Result<()> {
        nothing(rest)?;
        match self.side {
            Side::Share(_, _, _) => self.wanted.text.extend_from_slice(b"cut\n")?,
            _ => self.steps.push(Step::Cut)?,
        }
        Ok(())
    }

    /// The frame of a request: `COMMAND ID BODY`.
    fn asked(&self, names: &Names, rest: &str) -> Result<Vec<u8>> {
        let (command, rest) = cut(rest);
        let (mid, body) = cut(rest);
        let fields = Fields {
            command: small(command)?,
            mid: number(mid)?,
            status: 0,
            flags: 0,
        };
        request(
            self.alloc,
            &self.head,
            fields,
            &names.bytes(self.alloc, body)?,
        )
    }

    /// The frame of a reply: `COMMAND ID STATUS BODY`.
    fn replied(&self, names: &Names, rest: &str) -> Result<Vec<u8>> {
        let (command, rest) = cut(rest);
        let (mid, rest) = cut(rest);
        let (status, body) = cut(rest);
        let fields = Fields {
            command: small(command)?,
            mid: number(mid)?,
            status: hex32(status)?,
            flags: REPLY,
        };
        reply(
            self.alloc,
            &self.head,
            fields,
            &names.bytes(self.alloc, body)?,
        )
    }

    /// The frame of an interim reply: `COMMAND ID BODY`, with the status PENDING.
    fn put_off(&self, names: &Names, rest: &str) -> Result<Vec<u8>> {
        let (command, rest) = cut(rest);
        let (mid, body) = cut(rest);
        let fields = Fields {
            command: small(command)?,
            mid: number(mid)?,
            status: 0x103,
            flags: INTERIM,
        };
        reply(
            self.alloc,
            &self.head,
            fields,
            &names.bytes(self.alloc, body)?,
        )
    }

    /// Changes bytes of what comes: `NUMBER OFFSET BYTES`, the number from 1 on.
    fn patch(&mut self, names: &Names, rest: &str) -> Result<()> {
        let (which, rest) = cut(rest);
        let (place, bytes) = cut(rest);
        let which = number(which)?;
        let place = count(place)?;
        let bytes = names.bytes(self.alloc, bytes)?;
        let mut at: u64 = 0;
        for step in self.steps.iter_mut() {
            if let Step::Got(frame) = step {
                at = at.saturating_add(1);
                if at == which {
                    return patch(frame, place, &bytes);
                }
            }
        }
        bail!("there is no {which}th frame")
    }

    /// Makes one frame of the last frames that come, so many of them.
    fn join(&mut self, rest: &str) -> Result<()> {
        let many = count(rest)?;
        ensure!(2 <= many, "{many} frames are not joined");
        let mut frames = Vec::new(self.alloc);
        for _ in 0..many {
            frames.push(self.last_frame()?)?;
        }
        frames.reverse();
        let frame = joined(self.alloc, &frames)?;
        self.steps.push(Step::Got(frame))?;
        Ok(())
    }

    /// Takes back the last frame that comes.
    fn last_frame(&mut self) -> Result<Vec<u8>> {
        match self.steps.pop() {
            Some(Step::Got(frame)) => Ok(frame),
            _ => bail!("there are not so many frames right before it"),
        }
    }

    /// Takes a line that says what is wanted.
    pub fn wants(&mut self, names: &Names, line: &str) -> Result<()> {
        let (word, rest) = cut(line);
        match word {
            ">" => {
                self.wanted.text.extend_from_slice(rest.as_bytes())?;
                self.wanted.text.push(b'\n')?;
            }
            "status" => self.wanted.status = Some(number(rest)?),
            "connects" => self.wanted.connects = Some(number(rest)?),
            "sent" => self.wanted.sent = Some(frames_of(self.alloc, rest)?),
            "frame" => {
                let (which, bytes) = cut(rest);
                let frame = names.bytes(self.alloc, bytes)?;
                self.wanted.frames.push((number(which)?, frame))?;
            }
            "marks" => {
                let (line, frames) = cut(rest);
                self.wanted.marks.push((number(line)?, number(frames)?))?;
            }
            "story" => self.wanted.story = Some(told(self.alloc, rest)?),
            "request" => self.wants_request(names, rest)?,
            _ => bail!("no row has the word {word:?}"),
        }
        Ok(())
    }

    /// A request that a mount makes: `COMMAND CHARGE TREE SESSION BODY`.
    fn wants_request(&mut self, names: &Names, rest: &str) -> Result<()> {
        self.wanted.requests = true;
        let (command, rest) = cut(rest);
        let (charge, rest) = cut(rest);
        let (tree, rest) = cut(rest);
        let (session, body) = cut(rest);
        let body = hex::encode_upper(self.alloc, names.bytes(self.alloc, body)?)?;
        let body = body.as_str();
        let line = format!(in self.alloc; "request {command} {charge} {tree} {session} {body}\n")?;
        self.wanted
            .text
            .extend_from_slice(line.as_str().as_bytes())?;
        Ok(())
    }
}

/// The share of `room N credits N`, or `room N credits N fold`.
fn share_of(rest: &str) -> Result<Side> {
    let (room, rest) = cut(rest);
    let (bytes, rest) = cut(rest);
    let (credits, rest) = cut(rest);
    let (many, rest) = cut(rest);
    ensure!(
        room == "room" && credits == "credits",
        "no room or no credits"
    );
    ensure!(
        rest.is_empty() || rest == "fold",
        "{rest:?} is no way to fold names"
    );
    Ok(Side::Share(number(bytes)?, rest == "fold", small(many)?))
}

/// The turn with this name.
fn turn_of(name: &str) -> Result<Turn> {
    Ok(match name {
        "serve" => Turn::Serve(0),
        "quiet" => Turn::Quiet,
        "cut" => Turn::Cut,
        "drop" => Turn::DropAll,
        "refuse" => Turn::RefuseConnect,
        _ => bail!("no turn has the name {name:?}"),
    })
}

/// Numbers.
fn numbers(alloc: Global, rest: &str) -> Result<U64List> {
    let mut list = Vec::new(alloc);
    for word in rest.split_whitespace() {
        list.push(number(word)?)?;
    }
    Ok(U64List::of(alloc, &list)?)
}

/// Frames, each as the commands of its messages.
fn frames_of(alloc: Global, rest: &str) -> Result<Vec<Vec<u16>>> {
    let mut list = Vec::new(alloc);
    for word in rest.split_whitespace() {
        list.push(commands(alloc, word)?)?;
    }
    Ok(list)
}

/// The numbers of the commands of `A+B+..`.
fn commands(alloc: Global, word: &str) -> Result<Vec<u16>> {
    let mut list = Vec::new(alloc);
    for number in word.split('+') {
        list.push(small(number)?)?;
    }
    Ok(list)
}

/// The words of the events that are told.
fn told(alloc: Global, rest: &str) -> Result<Vec<String>> {
    let mut list = Vec::new(alloc);
    for word in rest.split_whitespace() {
        ensure!(is_word(word), "no event has the word {word:?}");
        list.push(String::from_str(alloc, word)?)?;
    }
    Ok(list)
}

/// A word and how often it stands: `WORD`, or `WORD*N`.
fn repeated(word: &str) -> Result<(&str, usize)> {
    let (word, times) = match word.split_once('*') {
        Some((word, times)) => (word, count(times)?),
        None => (word, 1),
    };
    ensure!(times <= 100_000, "{times} turns are too many");
    Ok((word, times))
}
