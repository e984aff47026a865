// What ties writing to reading, as promises of a call.
ghost use Rattle.writing.specs.Laws.{NothingIsLost, OnlySoundLinesAreRead, EveryLineCanBeKept, EveryByteMayStand, LinesComeApart};

// It stands for laws about lines: the contract is the laws, and the call does nothing.
pub fn laws_stand() -> u8
    ensures a_line_that_is_read_has_the_bytes_that_are_written { NothingIsLost }
    ensures a_line_that_is_read_says_something_sound { OnlySoundLinesAreRead }
    ensures a_sound_line_that_is_written_is_read_and_says_the_same { EveryLineCanBeKept }
    ensures the_bytes_of_a_sound_line_may_stand_in_a_file { EveryByteMayStand }
    ensures sound_lines_come_apart_at_their_line_feeds { LinesComeApart }
{
    0
}
