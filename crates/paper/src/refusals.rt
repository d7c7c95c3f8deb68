// Why a call refuses, one for each number of the printed list.
ghost use Rattle.std.specs.Prelude.{◌≡◌};
ghost use Rattle.paper.specs.Refusals.{number_of};

#[derive(Clone, Copy, PartialEq, Eq)]
pub enum Refusal {
    // 1. "The file has under 3 bytes or byte 0 is not 1."
    Header,
    // 2. "Its length field is not its length."
    FileLength,
    // 3. "The three sections do not fill it just so."
    FileSections,
    // 4. "The variable count or section length is wrong."
    VariableLayout,
    // 5. "Minimum ≤ initial ≤ maximum fails."
    ValueOrder,
    // 6. "The equation section breaks its layout or a count."
    EquationLayout,
    // 7. "An equation names a missing variable or mode, truths left aside."
    EquationName,
    // 8. "A variable is in two equations or twice in one mode."
    DrivenTwice,
    // 9. "The schedule section, its node count, a length, kind, payload or child count breaks its layout."
    NodeLayout,
    // 10. "The nodes do not make just one tree."
    NoTree,
    // 11. "A node names a missing variable, selector or mode, its truth or number left aside."
    NodeName,
    // 34, directly after 11: a RESET of a variable that some equation drives, or a REINITIAL of one that none does
    Parting,
    // 12. "A truth or number is cut, overlong, too deep, of the wrong sort, has an unknown code or names a missing variable."
    Expression,
    // 13. "There are over 1,024 locations."
    Locations,
    // 14. "The lent buffer is shorter than the table."
    TableRoom,
    // 15. "The table has under 5 bytes, or a wrong version or length."
    TableHeader,
    // 16. "Its four sections do not fill it."
    TableSections,
    // 17. "Its first two sections break 4..8 or 12."
    TablePlant,
    // 18, of a table's actions
    TableActions,
    // 19, of a table's locations
    TableLocations,
    // 20. "The starting values (4 bytes each, then modes) have a wrong length, value or mode."
    Start,
    // 21. "The event bytes are not a multiple of 3."
    EventLength,
    // 22. "The record buffer is too short."
    RecordRoom,
    // 32: more practice events than 10,000
    EventCount,
    // 33: no room for the practice events
    EventRoom,
}

// The number that a call returns.
impl From<Refusal> for u8 {
    ghost from_gives = { λ why r. r ≡ number_of why };

    fn from(why: Refusal) -> u8 {
        match why {
            Refusal::Header => 1,
            Refusal::FileLength => 2,
            Refusal::FileSections => 3,
            Refusal::VariableLayout => 4,
            Refusal::ValueOrder => 5,
            Refusal::EquationLayout => 6,
            Refusal::EquationName => 7,
            Refusal::DrivenTwice => 8,
            Refusal::NodeLayout => 9,
            Refusal::NoTree => 10,
            Refusal::NodeName => 11,
            Refusal::Parting => 34,
            Refusal::Expression => 12,
            Refusal::Locations => 13,
            Refusal::TableRoom => 14,
            Refusal::TableHeader => 15,
            Refusal::TableSections => 16,
            Refusal::TablePlant => 17,
            Refusal::TableActions => 18,
            Refusal::TableLocations => 19,
            Refusal::Start => 20,
            Refusal::EventLength => 21,
            Refusal::RecordRoom => 22,
            Refusal::EventCount => 32,
            Refusal::EventRoom => 33,
        }
    }
}
