//! What whole lines of words mean. Each law names lines by their words after the program's name, which may be any.
ghost use Rattle.std.specs.Prelude.{◌∷◌, [], None, Some, codes, false, true};
ghost use Rattle.clap.specs.Words.{Text};
ghost use Rattle.snap_core.specs.Limits.{IsLimit};
ghost use Rattle.snap_core.specs.UsualLimits.{greatest_limit, usual_limit};
ghost use Rattle.snap_words.specs.Cutting.{AsksCut, CutsUnheeding};
ghost use Rattle.snap_words.specs.Drawing.{AsksDraw, AsksDrawWithin, usual_part};
ghost use Rattle.snap_words.specs.Explaining.{AsksExplanation, AsksExplanationWithin, CutsOneWriter, DrawsFaults};
ghost use Rattle.snap_words.specs.Jobs.{AsksCheck, AsksFollow, AsksRecord, AsksRecordWithin, AsksStats, AsksStatsWithin, AsksTooManyRounds, FollowsUnheeding, LacksFollow, NamesInputTwice, no_flags, no_options, plain_check};
ghost use Rattle.snap_words.specs.Limits.{limit_of, many_of, usual_many};
ghost use Rattle.snap_words.specs.Lines.{Means};
ghost use Rattle.snap_words.specs.Shrinking.{AsksShrink, AsksShrinkWithin, DrawsMap};
ghost use Rattle.snap_words.specs.declared.color.Color.TheVariants.{Never};
ghost use Rattle.snap_words.specs.declared.drawing.Form.TheVariants.{Lines, Page, Svg};
ghost use Rattle.snap_words.specs.declared.drawing.Place.TheVariants.{Around, From};
ghost use Rattle.snap_options.specs.declared.scheme.Scheme.TheVariants.{Dark, Light};
ghost use Rattle.snap_words.specs.declared.format.Format.TheVariants.{Json, Junit};
ghost use Rattle.snap_words.specs.declared.shrunk.Shrunk.TheVariants.{Map, Picture, Witness};

/// What lines of `check` ask for: 8 pieces and 2 workers if nothing else is said, and what each option says. If `--pieces 8` is said,
/// the program chooses no other number. A window alone asks for no job. Neither does an option that has no use with `--follow`.
pub fn check_lines()
    ensures alone { (name : Text) → Means (name ∷ codes "check" ∷ []) (codes "check") (λ rows. AsksCheck rows plain_check) [] }
    ensures cut { (name : Text) → Means (name ∷ codes "check" ∷ codes "--pieces" ∷ codes "3" ∷ codes "--workers" ∷ codes "4" ∷ []) (codes "check") (λ rows. AsksCheck rows (record plain_check { pieces = 3; workers = 4; options = record no_options { finer = false } })) [] }
    ensures pieces { (name : Text) → Means (name ∷ codes "check" ∷ codes "--pieces" ∷ codes "8" ∷ []) (codes "check") (λ rows. AsksCheck rows (record plain_check { options = record no_options { finer = false } })) [] }
    ensures quiet { (name : Text) → Means (name ∷ codes "check" ∷ codes "--quiet" ∷ []) (codes "check") (λ rows. AsksCheck rows (record plain_check { options = record no_options { quiet = true } })) [] }
    ensures views { (name : Text) → Means (name ∷ codes "check" ∷ codes "--views" ∷ codes "5" ∷ []) (codes "check") (λ rows. AsksCheck rows (record plain_check { options = record no_options { views = 5 } })) [] }
    ensures json { (name : Text) → Means (name ∷ codes "check" ∷ codes "--format" ∷ codes "json" ∷ []) (codes "check") (λ rows. AsksCheck rows (record plain_check { options = record no_options { format = Json } })) [] }
    ensures junit { (name : Text) → Means (name ∷ codes "check" ∷ codes "--format" ∷ codes "junit" ∷ []) (codes "check") (λ rows. AsksCheck rows (record plain_check { options = record no_options { format = Junit } })) [] }
    ensures summary { (name : Text) → Means (name ∷ codes "check" ∷ codes "--summary" ∷ []) (codes "check") (λ rows. AsksCheck rows (record plain_check { options = record no_options { summary = true } })) [] }
    ensures follow { (name : Text) → Means (name ∷ codes "check" ∷ codes "--follow" ∷ codes "--window" ∷ codes "500" ∷ codes "--idle" ∷ codes "5" ∷ []) (codes "check") (λ rows. AsksFollow usual_limit rows (record { least = 500; idle = 5; late = 1000; views = 0 })) [] }
    ensures few { (name : Text) (fits : IsLimit 500) → Means (name ∷ codes "check" ∷ codes "--follow" ∷ codes "--events" ∷ codes "500" ∷ []) (codes "check") (λ rows. AsksFollow (limit_of 500 fits) rows (record { least = 250; idle = 0; late = 1000; views = 0 })) [] }
    ensures late { (name : Text) → Means (name ∷ codes "check" ∷ codes "--follow" ∷ codes "--late" ∷ codes "20" ∷ []) (codes "check") (λ rows. AsksFollow usual_limit rows (record { least = 1000; idle = 0; late = 20; views = 0 })) [] }
    ensures follow_writers { (name : Text) → Means (name ∷ codes "check" ∷ codes "--follow" ∷ codes "--writers" ∷ codes "many" ∷ []) (codes "check") (λ rows. AsksFollow usual_many rows (record { least = 1000; idle = 0; late = 1000; views = 0 })) [] }
    ensures late_unfollowed { (name : Text) → Means (name ∷ codes "check" ∷ codes "--late" ∷ codes "20" ∷ []) (codes "check") LacksFollow [] }
    ensures unfollowed { (name : Text) → Means (name ∷ codes "check" ∷ codes "--window" ∷ codes "500" ∷ []) (codes "check") LacksFollow [] }
    ensures color { (name : Text) → Means (name ∷ codes "check" ∷ codes "--color" ∷ codes "never" ∷ []) (codes "check") (λ rows. AsksCheck rows (record plain_check { options = record no_options { color = Never } })) [] }
    ensures events { (name : Text) → Means (name ∷ codes "check" ∷ codes "--events" ∷ codes "1048576" ∷ []) (codes "check") (λ rows. AsksCheck rows (record plain_check { limit = greatest_limit })) [] }
    ensures writers { (name : Text) → Means (name ∷ codes "check" ∷ codes "--writers" ∷ codes "many" ∷ []) (codes "check") (λ rows. AsksCheck rows (record plain_check { limit = usual_many })) [] }
    ensures short { (name : Text) → Means (name ∷ codes "check" ∷ codes "-q" ∷ []) (codes "check") (λ rows. AsksCheck rows (record plain_check { options = record no_options { quiet = true } })) [] }
    ensures unheeded { (name : Text) → Means (name ∷ codes "check" ∷ codes "--follow" ∷ codes "--workers" ∷ codes "4" ∷ []) (codes "check") FollowsUnheeding [] }
    ensures files { (name : Text) → Means (name ∷ codes "check" ∷ codes "a.csv" ∷ codes "-" ∷ []) (codes "check") (λ rows. AsksCheck rows plain_check) (codes "a.csv" ∷ codes "-" ∷ []) }
{}

/// What lines of `check --cut` and of `explain --cut` ask for: many writers of each component, said or not. Nothing that has no use
/// with a cut, and no word of one writer, asks for a job beside it.
pub fn cut_lines()
    ensures alone { (name : Text) → Means (name ∷ codes "check" ∷ codes "--cut" ∷ []) (codes "check") (AsksCut usual_many false) [] }
    ensures writers { (name : Text) → Means (name ∷ codes "check" ∷ codes "--cut" ∷ codes "--writers" ∷ codes "many" ∷ []) (codes "check") (AsksCut usual_many false) [] }
    ensures events { (name : Text) (fits : IsLimit 500) → Means (name ∷ codes "check" ∷ codes "--cut" ∷ codes "--events" ∷ codes "500" ∷ []) (codes "check") (AsksCut (many_of 500 fits) false) [] }
    ensures quiet { (name : Text) → Means (name ∷ codes "check" ∷ codes "--cut" ∷ codes "--quiet" ∷ codes "a.csv" ∷ []) (codes "check") (AsksCut usual_many true) (codes "a.csv" ∷ []) }
    ensures workers { (name : Text) → Means (name ∷ codes "check" ∷ codes "--cut" ∷ codes "--workers" ∷ codes "4" ∷ []) (codes "check") CutsUnheeding [] }
    ensures one_writer { (name : Text) → Means (name ∷ codes "check" ∷ codes "--cut" ∷ codes "--writers" ∷ codes "one" ∷ []) (codes "check") CutsUnheeding [] }
    ensures explain { (name : Text) → Means (name ∷ codes "explain" ∷ codes "--cut" ∷ []) (codes "explain") (AsksExplanationWithin usual_many true false false 1) [] }
    ensures explain_one { (name : Text) → Means (name ∷ codes "explain" ∷ codes "--cut" ∷ codes "--writers" ∷ codes "one" ∷ []) (codes "explain") CutsOneWriter [] }
{}

/// Names of files come from a list and from below a folder too.
pub fn source_lines()
    ensures { (name : Text) → Means (name ∷ codes "check" ∷ codes "--files-from" ∷ codes "-" ∷ codes "-0" ∷ codes "-r" ∷ codes "runs" ∷ []) (codes "check") (λ rows. AsksCheck rows (record plain_check { list = Some (codes "-"); null = true; folder = Some (codes "runs") })) [] }
{}

/// What lines of `shrink`, `explain` and `draw` ask for. A line that asks for a picture and for a map, or for a picture and for more than
/// one fault of a kind, asks for no job.
pub fn picture_lines()
    ensures shrink_alone { (name : Text) → Means (name ∷ codes "shrink" ∷ []) (codes "shrink") (AsksShrink Witness) [] }
    ensures shrink_drawn { (name : Text) → Means (name ∷ codes "shrink" ∷ codes "--draw" ∷ []) (codes "shrink") (AsksShrink Picture) [] }
    ensures shrink_mapped { (name : Text) → Means (name ∷ codes "shrink" ∷ codes "--map" ∷ []) (codes "shrink") (AsksShrink Map) [] }
    ensures drawn_map { (name : Text) → Means (name ∷ codes "shrink" ∷ codes "--map" ∷ codes "--draw" ∷ []) (codes "shrink") DrawsMap [] }
    ensures explain_alone { (name : Text) → Means (name ∷ codes "explain" ∷ []) (codes "explain") (AsksExplanation false false 1) [] }
    ensures explain_drawn { (name : Text) → Means (name ∷ codes "explain" ∷ codes "--draw" ∷ []) (codes "explain") (AsksExplanation true false 1) [] }
    ensures explain_all { (name : Text) → Means (name ∷ codes "explain" ∷ codes "--all" ∷ []) (codes "explain") (AsksExplanation false true 1) [] }
    ensures explain_faults { (name : Text) → Means (name ∷ codes "explain" ∷ codes "--faults" ∷ codes "10" ∷ []) (codes "explain") (AsksExplanation false false 10) [] }
    ensures drawn_faults { (name : Text) → Means (name ∷ codes "explain" ∷ codes "--draw" ∷ codes "--faults" ∷ codes "10" ∷ []) (codes "explain") DrawsFaults [] }
    ensures draw_alone { (name : Text) → Means (name ∷ codes "draw" ∷ []) (codes "draw") (λ rows. AsksDraw rows (Page None)) [] }
    ensures draw_light { (name : Text) → Means (name ∷ codes "draw" ∷ codes "--light" ∷ []) (codes "draw") (λ rows. AsksDraw rows (Page (Some Light))) [] }
    ensures draw_svg { (name : Text) → Means (name ∷ codes "draw" ∷ codes "--svg" ∷ []) (codes "draw") (λ rows. AsksDraw rows (Svg None)) [] }
    ensures draw_dark { (name : Text) → Means (name ∷ codes "draw" ∷ codes "--svg" ∷ codes "--dark" ∷ []) (codes "draw") (λ rows. AsksDraw rows (Svg (Some Dark))) [] }
    ensures draw_text { (name : Text) → Means (name ∷ codes "draw" ∷ codes "--text" ∷ []) (codes "draw") (λ rows. AsksDraw rows Lines) [] }
    ensures shrink_events { (name : Text) → Means (name ∷ codes "shrink" ∷ codes "--events" ∷ codes "1048576" ∷ []) (codes "shrink") (AsksShrinkWithin greatest_limit Witness) [] }
    ensures explain_events { (name : Text) → Means (name ∷ codes "explain" ∷ codes "--events" ∷ codes "1048576" ∷ []) (codes "explain") (AsksExplanationWithin greatest_limit false false false 1) [] }
    ensures draw_events { (name : Text) → Means (name ∷ codes "draw" ∷ codes "--events" ∷ codes "1048576" ∷ []) (codes "draw") (λ rows. AsksDrawWithin greatest_limit rows (Page None) usual_part) [] }
    ensures shrink_writers { (name : Text) → Means (name ∷ codes "shrink" ∷ codes "--writers" ∷ codes "many" ∷ []) (codes "shrink") (AsksShrinkWithin usual_many Witness) [] }
    ensures explain_writers { (name : Text) → Means (name ∷ codes "explain" ∷ codes "--writers" ∷ codes "many" ∷ []) (codes "explain") (AsksExplanationWithin usual_many false false false 1) [] }
    ensures draw_writers { (name : Text) → Means (name ∷ codes "draw" ∷ codes "--writers" ∷ codes "many" ∷ []) (codes "draw") (λ rows. AsksDrawWithin usual_many rows (Page None) usual_part) [] }
    ensures draw_from { (name : Text) → Means (name ∷ codes "draw" ∷ codes "--calls" ∷ codes "500" ∷ codes "--from" ∷ codes "5" ∷ []) (codes "draw") (λ rows. AsksDrawWithin usual_limit rows (Page None) (record { calls = Some 500; place = From 5 })) [] }
    ensures draw_around { (name : Text) → Means (name ∷ codes "draw" ∷ codes "--around" ∷ codes "5" ∷ []) (codes "draw") (λ rows. AsksDrawWithin usual_limit rows (Page None) (record usual_part { place = Around 5 })) [] }
{}

/// What lines of `stats` ask for: lines, if nothing else is said. A line that names standard input twice asks for no job.
pub fn stats_lines()
    ensures alone { (name : Text) → Means (name ∷ codes "stats" ∷ []) (codes "stats") (AsksStats false) [] }
    ensures json { (name : Text) → Means (name ∷ codes "stats" ∷ codes "--format" ∷ codes "json" ∷ []) (codes "stats") (AsksStats true) [] }
    ensures events { (name : Text) → Means (name ∷ codes "stats" ∷ codes "--events" ∷ codes "1048576" ∷ []) (codes "stats") (AsksStatsWithin greatest_limit false) [] }
    ensures writers { (name : Text) → Means (name ∷ codes "stats" ∷ codes "--writers" ∷ codes "many" ∷ []) (codes "stats") (AsksStatsWithin usual_many false) [] }
    ensures files { (name : Text) → Means (name ∷ codes "stats" ∷ codes "a.csv" ∷ codes "-" ∷ []) (codes "stats") (AsksStats false) (codes "a.csv" ∷ codes "-" ∷ []) }
    ensures repeated { (name : Text) → Means (name ∷ codes "stats" ∷ codes "-" ∷ codes "-" ∷ []) (codes "stats") NamesInputTwice (codes "-" ∷ codes "-" ∷ []) }
{}

/// What lines of `record` ask for. Without options they are 2 workers and 16 rounds of views, or fewer rounds if the limit of
/// events allows no more, and the seed 0. A line that asks for more rounds than that is refused.
pub fn record_lines()
    ensures alone { (name : Text) → Means (name ∷ codes "record" ∷ []) (codes "record") (λ rows. AsksRecord rows 2 16 0 no_flags) [] }
    ensures judged { (name : Text) → Means (name ∷ codes "record" ∷ codes "--rounds" ∷ codes "5" ∷ codes "--judge" ∷ []) (codes "record") (λ rows. AsksRecord rows 2 5 0 (record no_flags { judge = true })) [] }
    ensures scanned { (name : Text) → Means (name ∷ codes "record" ∷ codes "--scan" ∷ []) (codes "record") (λ rows. AsksRecord rows 2 16 0 (record no_flags { scan = true })) [] }
    ensures stamped { (name : Text) → Means (name ∷ codes "record" ∷ codes "--stamped" ∷ []) (codes "record") (λ rows. AsksRecord rows 2 16 0 (record no_flags { stamped = true })) [] }
    ensures seeded { (name : Text) → Means (name ∷ codes "record" ∷ codes "--seed" ∷ codes "5" ∷ []) (codes "record") (λ rows. AsksRecord rows 2 16 5 no_flags) [] }
    ensures events { (name : Text) → Means (name ∷ codes "record" ∷ codes "--events" ∷ codes "1048576" ∷ codes "--rounds" ∷ codes "32768" ∷ []) (codes "record") (λ rows. AsksRecordWithin 1048576 rows 2 32768 0 no_flags) [] }
    ensures few { (name : Text) → Means (name ∷ codes "record" ∷ codes "--events" ∷ codes "100" ∷ []) (codes "record") (λ rows. AsksRecordWithin 100 rows 2 3 0 no_flags) [] }
    ensures overfull { (name : Text) → Means (name ∷ codes "record" ∷ codes "--rounds" ∷ codes "2049" ∷ []) (codes "record") AsksTooManyRounds [] }
{}
