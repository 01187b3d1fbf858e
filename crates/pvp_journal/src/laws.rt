//! What holds of journals, and of what goes on from them: functions that do nothing, whose contracts say it.
ghost use Rattle.std.specs.Prelude.{List, [], length, map, take, ℕ, ◌++◌, ◌+◌, ◌∷◌, ◌≡◌, ◌≢◌, ◌≤◌};
ghost use Rattle.pvp_wire.specs.Spelling.{number};
ghost use Rattle.pvp_wire.specs.Fits.{Fits, IsBytes};
ghost use Rattle.pvp_journal.specs.declared.fault.JournalWhy.{JournalWhy};
ghost use Rattle.pvp_journal.specs.declared.fault.JournalWhy.TheVariants as why;
ghost use Rattle.pvp_journal.specs.declared.head.Head.{Head};
ghost use Rattle.pvp_journal.specs.declared.journal.Left.{Left};
ghost use Rattle.pvp_journal.specs.Spelling.{Entry, checksum, greatest_u32, head_sum, head_text, journal_sum, journal_text, record_sum, record_text, with_length};
ghost use Rattle.pvp_journal.specs.Fits.{AreJournalable};
ghost use Rattle.pvp_journal.specs.Journals.{CutOff, Damaged, IsCutBehind, IsLeft, IsPartial, IsRead, IsWrong, NoRecord, Place, ReadsAs, front_at};
ghost use Rattle.pvp_journal.specs.declared.journal.Journal.{Journal};
ghost use Rattle.pvp_journal.specs.declared.journal.Left.TheVariants.{Nothing};
ghost use Rattle.pvp_journal.specs.Summaries.{Taken, entry_of};
ghost use Rattle.pvp_journal.specs.Log.{MayLeave};
ghost use Rattle.pvp_journal.specs.Rooms.{bank_texts, records};

/// What a head and a history are spelled as reads as that head and that history, with nothing left behind it.
pub fn whole_reads_back()
    ensures { (head : Head) (history : List Entry) → AreJournalable head history →
        ReadsAs (journal_text head history) head history
        (record { sum = journal_sum head history; bytes = [] }) }
{}

/// What is read is spelled so, to the byte, and can be journaled; and the next record goes on from the checksum that a
/// reader holds then.
pub fn read()
    ensures { (bytes : List ℕ) (head : Head) (history : List Entry) (end : Place) → IsBytes bytes →
        ReadsAs bytes head history end →
        (bytes ≡ journal_text head history ++ end.bytes) × AreJournalable head history
        × (end.sum ≡ journal_sum head history) }
{}

/// Bytes read as one head and one history alone, up to where no record stands. None does where
/// nothing is left or a record is torn, and none where something is wrong but for lack of memory.
/// So of what `read_journal` may answer by its contract no two answers differ, unless memory was
/// refused.
pub fn only_one_reading()
    ensures reading { (bytes : List ℕ) (head other : Head) (history more : List Entry)
        (end stop : Place) → ReadsAs bytes head history end → NoRecord head.actor end →
        ReadsAs bytes other more stop → NoRecord other.actor stop →
        (head ≡ other) × (history ≡ more) × (end ≡ stop) }
    ensures left { (all : List ℕ) (me : ℕ) (end : Place) (left : Left) →
        IsLeft all end left → NoRecord me end }
    ensures wrong { (me : ℕ) (end : Place) (fault : JournalWhy) →
        fault ≢ why.NoMemory → IsWrong me end fault → NoRecord me end }
{}

/// Two heads with their histories that are spelled alike are one.
pub fn one()
    ensures { (head other : Head) (history more : List Entry) →
        AreJournalable head history → AreJournalable other more →
        journal_text head history ≡ journal_text other more → (head ≡ other) × (history ≡ more) }
{}

/// A journal that was cut off anywhere behind its head is the journal of a front of its history,
/// and behind that nothing or a torn record. It reads so, and by `only_one_reading` in no other
/// way: it is never reported as damaged.
pub fn cut()
    ensures { (head : Head) (history : List Entry) (size : ℕ) → AreJournalable head history →
        length (head_text head) ≤ size →
        IsCutBehind (take size (journal_text head history)) head history }
{}

/// What is torn is a front of a record, in mid-write: some bytes of one that would be whole with more. And each such front
/// is torn.
pub fn torn_is_partial()
    ensures partial { (before : ℕ) (bytes : List ℕ) → IsBytes bytes →
        front_at before bytes ≡ CutOff → IsPartial before bytes }
    ensures cut { (before : ℕ) (bytes : List ℕ) →
        IsPartial before bytes → front_at before bytes ≡ CutOff }
{}

/// A whole record with another checksum is damaged, and not torn, whatever comes behind it; and so is one whose length
/// does not have its complement behind it, however few bytes there are.
pub fn damage()
    ensures checksum { (before : ℕ) (body : List ℕ) (sum : ℕ) (rest : List ℕ) →
        Fits 4 (length body) → Fits 8 sum → sum ≢ checksum before (with_length body) →
        front_at before ((with_length body ++ number 8 sum) ++ rest) ≡ Damaged why.Checksum }
    ensures length { (before n m : ℕ) (rest : List ℕ) → Fits 4 n → Fits 4 m → n + m ≢ greatest_u32 →
        front_at before ((number 4 n ++ number 4 m) ++ rest) ≡ Damaged why.Length }
{}

/// A journal grows at its end: with one more event it is what it was, and behind that the record of the event, whose
/// checksum goes on from the last.
pub fn grows()
    ensures text { (head : Head) (history : List Entry) (r : Entry) →
        journal_text head (history ++ r ∷ []) ≡
        journal_text head history ++ record_text head.actor (journal_sum head history) r }
    ensures sum { (head : Head) (history : List Entry) (r : Entry) →
        journal_sum head (history ++ r ∷ []) ≡
        record_sum head.actor (journal_sum head history) r }
{}

/// A log that begins with a head and holds the records of a history behind it is the journal of its entries.
pub fn is_a_journal()
    ensures { (head : Head) (history : List Taken) →
        head_text head ++ records (bank_texts head.actor) (head_sum head) history
        ≡ journal_text head (map entry_of history) }
{}

/// What a power cut leaves of such a log, where its head was synced, reads as a front of the
/// history, with what is left reported as torn and never as damaged.
pub fn after_a_cut()
    ensures { (head : Head) (history : List Entry) (synced : ℕ) (left : List ℕ) →
        AreJournalable head history →
        length (head_text head) ≤ synced → MayLeave (journal_text head history) synced left →
        IsCutBehind left head history }
{}

/// A log that holds a journal which was read to the end of its bytes, and behind it the records of what was taken since,
/// holds the journal of both.
pub fn what_goes_on()
    ensures { (bytes : List ℕ) (journal : Journal) (later : List Taken) → IsBytes bytes →
        IsRead bytes journal → journal.left ≡ Nothing →
        bytes ++ records (bank_texts journal.head.actor) journal.sum later
        ≡ journal_text journal.head (journal.history.items ++ map entry_of later) }
{}
