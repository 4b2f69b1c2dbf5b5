//! Laws about files of questions: functions with no code, whose contracts are the laws.

ghost use Rattle.dir_questions.specs.Laws.{AnswersAreFixed, AnswersAreReports};

/// A law: the answers to a block are what slapacl reports for its question alone, under the same configuration and copy; and where they are
/// `no such entry`, it has that fault.
pub fn answers_are_reports()
    ensures { AnswersAreReports }
{}

/// A law: under the same configuration and directory, a file of questions that is written with its answers, and has at most 16,777,216 bytes, is
/// answered as it expects, and written again it is the same, byte for byte.
pub fn answers_are_fixed()
    ensures { AnswersAreFixed }
{}
