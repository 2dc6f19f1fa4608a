// What the vector files hold for calls that are not there yet.
use vector_files::Waiting;

/// The list of what waits, whole: the trustee's calls open and finish, and the rounds of a session, are
/// not there yet. What is taken off it is compared from then on.
pub const WAITING: Waiting = Waiting {
    files: &["rounds.txt", "shifts.txt"],
    calls: &["open"],
    lines: &[
        "round_one_1",
        "round_one_2",
        "round_one_3",
        "round_one_4",
        "round_one_5",
        "round_one_6",
        "round_one_7",
        "round_one_8",
        "round_one_sum",
        "round_two_1",
        "round_two_2",
        "round_two_3",
        "round_two_4",
        "round_two_5",
        "round_two_6",
        "round_two_7",
        "round_two_8",
        "round_two_sum",
    ],
};
