//! Laws of the definitions, as contracts of calls that do nothing.

ghost use Rattle.std.specs.List.{list_all};
ghost use Rattle.std.specs.Prelude.{◌≡◌, ◌||◌, [], ℕ, Bool, List, Option, Err, Ok, Some, map, true};
ghost use Rattle.dir_names.specs.declared.schema.TypeRow.{TypeRow};
ghost use Rattle.dir_conf_text.specs.Text.{config_lines};
ghost use Rattle.dir_names.specs.Keys.{DnKeys};
ghost use Rattle.dir_tree.specs.Dir.{Dir};
ghost use Rattle.dir_acl.specs.Bounds.{granted_by, granted_under, judged, rule_is_decided};
ghost use Rattle.dir_acl.specs.Config.{config_of};
ghost use Rattle.dir_acl.specs.Decision.{Question, is_granted, is_root_for, named};
ghost use Rattle.dir_acl.specs.Inside.Bounding.{BoundsAreExact};
ghost use Rattle.dir_acl.specs.Config.Permissions.{set_with_text};
ghost use Rattle.dir_acl.specs.Filters.{IsTooDeep, Spells, Tree, in_parentheses};
ghost use Rattle.dir_acl.specs.Filters.Reading.{filter_of};
ghost use Rattle.dir_acl.specs.Notes.{notes_of};
ghost use Rattle.dir_acl.specs.Notes.Known.{AreUnderstood};
ghost use Rattle.dir_acl.specs.Notes.Supertypes.{noted_types};
ghost use Rattle.dir_acl.specs.Privileges.{privileges_text};
ghost use Rattle.dir_acl.specs.Rules.{AccessRule, Configuration};
ghost use Rattle.dir_acl.specs.Substrings.{HasPieces, has_pieces};
ghost use Rattle.dir_acl.specs.declared.fault.FilterFault.TheVariants as FilterFault;
ghost use Rattle.dir_acl.specs.declared.filter.Pieces.{Pieces};
ghost use Rattle.dir_acl.specs.declared.privileges.Privilege.{Privilege};
ghost use Rattle.dir_acl.specs.declared.privileges.Privileges.{Privileges};

/// What is read is what the grammar spells (RFC 4515, section 3), in both directions, with at most 64 levels; `TooDeep` is told
/// exactly if a prefix that could begin a filter ends in the `(` of a 65th level.
pub fn reading_is_the_grammar()
    ensures spelled { (rows : List TypeRow) (text : List ℕ) (t : Tree) → filter_of rows text ≡ Ok t → Spells rows (in_parentheses text) t }
    ensures shallow { (rows : List TypeRow) (text : List ℕ) (t : Tree) → filter_of rows text ≡ Ok t → ¬ (IsTooDeep rows 64 (in_parentheses text)) }
    ensures read { (rows : List TypeRow) (text : List ℕ) (t : Tree) → Spells rows (in_parentheses text) t → ¬ (IsTooDeep rows 64 (in_parentheses text)) → filter_of rows text ≡ Ok t }
    ensures deep { (rows : List TypeRow) (text : List ℕ) → filter_of rows text ≡ Err FilterFault.TooDeep → IsTooDeep rows 64 (in_parentheses text) }
    ensures told { (rows : List TypeRow) (text : List ℕ) → IsTooDeep rows 64 (in_parentheses text) → filter_of rows text ≡ Err FilterFault.TooDeep }
{}

/// Where there is no note, there is a rule, and the rules name known types alone; but for the attributes of groups, none from which
/// another is derived. No clause takes one of `a` and `z` away alone.
pub fn rules_without_notes_are_understood()
    ensures { (rows : List TypeRow) (text : List ℕ) (config : Configuration) → config_of rows text ≡ Ok config → notes_of rows text ≡ [] → AreUnderstood (noted_types rows (config_lines text)) config }
{}

/// One pass over rules with open parts finds exactly what is held however these are closed, and what may be held (slapd.access(5)).
pub fn bounds_are_exact()
    ensures { BoundsAreExact }
{}

/// Rules without open parts grant what a decision grants: what a rule's clauses give once it is known which apply is one definition.
pub fn known_rules_are_granted()
    ensures { (d : Dir) (root : Option DnKeys) (rules : List AccessRule) (q : Question) (p : Privilege) → is_granted d root rules q p ≡ (is_root_for root (named q.requester) || granted_by (map (judged d q) rules) p) }
{}

/// However numbers are closed, rules without an open part grant what a decision grants.
pub fn decided_rules_are_granted()
    ensures { (closed : ℕ → Bool) (d : Dir) (root : Option DnKeys) (rules : List AccessRule) (q : Question) (p : Privilege) → list_all rule_is_decided rules ≡ true → granted_under closed d root rules q p ≡ is_granted d root rules q p }
{}

/// The test of a substring assertion tells whether some cut of the text has the pieces.
pub fn cuts_are_found()
    ensures found { (text : List ℕ) (pieces : Pieces) → HasPieces text pieces → has_pieces pieces text ≡ true }
    ensures there { (text : List ℕ) (pieces : Pieces) → has_pieces pieces text ≡ true → HasPieces text pieces }
{}

/// The text of a set of privileges is read back as this set.
pub fn privileges_read_back()
    ensures { (set : Privileges) → set_with_text (privileges_text set) ≡ Some set }
{}
