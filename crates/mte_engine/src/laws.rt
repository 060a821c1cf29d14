//! What holds for every answer of an engine. Each law is the contract of a function that does nothing.
ghost use Rattle.std.specs.Prelude.{◌≡◌, ◌≤◌, ℕ, Bool, false, List, ◌++◌, Err, Result, Some, length};
ghost use Rattle.class_table.specs.ClassLine.{BeginsWithTable};
ghost use Rattle.class_table.specs.Sizes.{largest_counted};
ghost use Rattle.class_table.specs.Tables.{IsLegalTable};
ghost use Rattle.class_table.specs.declared.class_line.TheConstants.{LINE_BYTES};
ghost use Rattle.class_table.specs.declared.fault.TableError.{TableError};
ghost use Rattle.class_table.specs.declared.layout.TheConstants.{FEWEST_GRANULES, MOST_GRANULES};
ghost use Rattle.class_table.specs.declared.sizes.TheConstants.{GRANULE_BYTES, LARGEST_CLASS, MOST_NEEDS, SMALLEST_CLASS};
ghost use Rattle.class_table.specs.declared.table.TheConstants.{MOST_CLASSES};
ghost use Rattle.class_tuner.specs.Tuned.{IsTuned};
ghost use Rattle.tool_call.specs.declared.call.CommandName.TheVariants.{Check, Score};
ghost use Rattle.tool_call.specs.declared.options.Options.{Options};
ghost use Rattle.trace_event.specs.declared.event.Event.{Event};
ghost use Rattle.trace_event.specs.declared.event.TheConstants.Event.{FARTHEST_ACCESS, FARTHEST_MOVE, LARGEST_REQUEST};
ghost use Rattle.trace_event.specs.declared.event.TheConstants.Event.{LARGEST_TAG_STEP, LAST_VARIABLE, LONGEST_ACCESS};
ghost use Rattle.history_count.specs.HistoryText.{SpellsHistory};
ghost use Rattle.history_count.specs.declared.fault.HistoryFault.{HistoryFault};
ghost use Rattle.line_text.specs.FirstFault.{IsFirstFault};
ghost use Rattle.potential_check.specs.SheetText.{sheet_text};
ghost use Rattle.profile_count.specs.ProfileText.{SpellsProfile};
ghost use Rattle.profile_count.specs.declared.fault.ProfileFault.{ProfileFault};
ghost use Rattle.heap_theory.specs.declared.config.Config.{Config};
ghost use Rattle.heap_theory.specs.declared.config.TheConstants.Config.{MOST_QUARANTINE};
ghost use Rattle.trace_reader.specs.TraceLine.{longest_line, most_events};
ghost use Rattle.tuner_theory.specs.Histories.{most};
ghost use Rattle.tuner_theory.specs.Profiles.{greatest_count};
ghost use Rattle.tuner_theory.specs.Sheets.{Sheet};
ghost use Rattle.tuner_theory.specs.Timelines.{IsTimeline, moments};
ghost use Rattle.tuner_theory.specs.declared.most_snapshots.TheConstants.{MOST_SNAPSHOTS};
ghost use Rattle.tuner_theory.specs.declared.size_event.SizeEvent.{SizeEvent};
ghost use Rattle.mte_engine.specs.Calls.{answers_of};
ghost use Rattle.mte_engine.specs.CheckFit.{CheckFitAnswers};
ghost use Rattle.mte_engine.specs.FaultLines.{IsAtFirstFault, SpellsFitAndHistory, SpellsSheetAndProfile};
ghost use Rattle.mte_engine.specs.FaultLines.{SpellsTableAndHistory, SpellsTableAndProfile, SpellsTableAndTimeline, line_of_fault};
ghost use Rattle.mte_engine.specs.FaultText.{in_line, shown_input_fault};
ghost use Rattle.mte_engine.specs.Fit.{FitAnswers};
ghost use Rattle.mte_engine.specs.FitOver.{FitEitherAnswers, FitOverAnswers};
ghost use Rattle.mte_engine.specs.Footprint.{FootprintAnswers};
ghost use Rattle.mte_engine.specs.FootprintOver.{FootprintOverAnswers};
ghost use Rattle.history_count.specs.Timelines.TablePeaks.{live_bytes, most_freed};
ghost use Rattle.history_count.specs.Timelines.TimelineText.{SpellsTimeline};
ghost use Rattle.mte_engine.specs.Outcome.{Answer};
ghost use Rattle.mte_engine.specs.PeakLaws.{IsGreatestTo, bytes_out, freed_at};
ghost use Rattle.mte_engine.specs.Replay.{ReplayAnswers, report_on};
ghost use Rattle.mte_engine.specs.Run.{IsTunedRun, RunAnswers};
ghost use Rattle.mte_engine.specs.Traces.{profile_of_events};
ghost use Rattle.mte_engine.specs.Tune.{tune_answers};
ghost use Rattle.mte_engine.specs.declared.engine.Status.TheVariants.{Done};
ghost use Rattle.mte_engine.specs.declared.fault.InputFault.{InputFault};
ghost use Rattle.mte_engine.specs.declared.fault.InputFault.TheVariants.{History, Profile, Table};

/// The headline holds for a sheet that is tuned for the profile of a trace, followed by the report on the replay over that sheet's table.
pub fn law_headline()
    ensures { (limit step : ℕ) (config : Config) (events : List Event) (sheet : Sheet)
        → IsTuned (profile_of_events events).counts step limit false sheet
        → let text = sheet_text sheet ++ report_on config sheet.table events in
        IsTunedRun limit step config events (record { text = text; status = Done }) }
{}

/// What `tune`, `fit` and `run` write is one function of their input and options; so is that of `fit` over a timeline.
pub fn law_one_answer()
    ensures tune { (options : Options) (text : List ℕ) (a b : Result Answer InputFault)
        → tune_answers options text a → tune_answers options text b → a ≡ b }
    ensures fit { (limit step : ℕ) (forced : Bool) (text : List ℕ) (a b : Result Answer InputFault)
        → FitAnswers limit step forced text a → FitAnswers limit step forced text b → a ≡ b }
    ensures fit_either { (limit step : ℕ) (forced : Bool) (text : List ℕ) (a b : Result Answer InputFault)
        → FitEitherAnswers limit step forced text a → FitEitherAnswers limit step forced text b → a ≡ b }
    ensures run { (limit step : ℕ) (config : Config) (text : List ℕ) (a b : Result Answer InputFault)
        → RunAnswers limit step config text a → RunAnswers limit step config text b → a ≡ b }
{}

/// A fault in a class line, in a profile, in a history or in a timeline is shown with the line of the input's first fault. The profile, the
/// history or the timeline is the whole input, or follows a class line, or a sheet or a fit, whose own lines are found by their form. Some
/// input without a fault begins with the lines before that line. None begins with these lines and that line; if that line is missing, none
/// has just these lines.
pub fn law_fault_lines()
    ensures shown { (fault : InputFault) (n : ℕ) → line_of_fault fault ≡ Some n
        → (name : List ℕ) × (shown_input_fault fault ≡ in_line name n) }
    ensures score { (options : Options) (text : List ℕ) (fault : InputFault) → options.first_lines ≤ 1
        → answers_of (record { command = Score; options = options }) text (Err fault)
        → IsAtFirstFault SpellsTableAndProfile text fault }
    ensures tune { (options : Options) (text : List ℕ) (fault : InputFault)
        → tune_answers options text (Err fault) → IsAtFirstFault SpellsProfile text fault }
    ensures check { (options : Options) (text : List ℕ) (n : ℕ) (fault : ProfileFault) → options.first_lines ≡ 0
        → answers_of (record { command = Check; options = options }) text (Err (Profile n fault))
        → IsFirstFault SpellsSheetAndProfile text n }
    ensures replay { (config : Config) (text : List ℕ) (fault : TableError)
        → ReplayAnswers config text (Err (Table fault)) → IsAtFirstFault BeginsWithTable text (Table fault) }
    ensures footprint { (text : List ℕ) (fault : InputFault) → FootprintAnswers text (Err fault)
        → IsAtFirstFault SpellsTableAndHistory text fault }
    ensures fit { (limit step : ℕ) (forced : Bool) (text : List ℕ) (fault : InputFault)
        → (FitAnswers limit step forced text (Err fault) → IsAtFirstFault SpellsHistory text fault)
        × (FitOverAnswers limit step forced text (Err fault) → IsAtFirstFault SpellsTimeline text fault) }
    ensures footprint_over { (text : List ℕ) (fault : InputFault) → FootprintOverAnswers text (Err fault)
        → IsAtFirstFault SpellsTableAndTimeline text fault }
    ensures check_fit { (options : Options) (text : List ℕ) (n : ℕ) (fault : HistoryFault)
        → CheckFitAnswers options text (Err (History n fault)) → IsFirstFault SpellsFitAndHistory text n }
{}

/// What `peaks` writes after `live` and `freed` is the most at any moment of a timeline, and reached at one. The live bytes are those that
/// the events up to the moment gave out and did not take back, each block of the bytes of its size's class. The freed blocks are counted
/// class by class, from event to event: a request is given a freed block of its class where there is one, and a free leaves one more.
pub fn law_peaks()
    ensures live { (events : List SizeEvent) (classes : List ℕ) → IsTimeline events → IsLegalTable 1 classes
        → IsGreatestTo (bytes_out classes events) (length events) (most (live_bytes classes) (moments events)) }
    ensures freed { (events : List SizeEvent) (classes : List ℕ) → IsTimeline events → IsLegalTable 1 classes
        → IsGreatestTo (freed_at classes events) (length events) (most_freed events classes) }
{}

/// The numbers of the formats. Most definitions take them from the code's constants; here each stands as a number.
pub fn law_numbers()
    ensures classes { (MOST_CLASSES ≡ 32) × (SMALLEST_CLASS ≡ 2) × (LARGEST_CLASS ≡ 1024) × (LINE_BYTES ≡ 168) }
    ensures sizes { (GRANULE_BYTES ≡ 16) × (largest_counted ≡ 16368) × (greatest_count ≡ 1000000000) }
    ensures rows { (MOST_SNAPSHOTS ≡ 1024) × (MOST_NEEDS ≡ 1023) }
    ensures traces { (longest_line ≡ 80) × (most_events ≡ 1000000) }
    ensures requests { (LAST_VARIABLE ≡ 1023) × (LARGEST_REQUEST ≡ 2147483647) }
    ensures accesses { (FARTHEST_ACCESS ≡ 1048576) × (LONGEST_ACCESS ≡ 64) }
    ensures steps { (FARTHEST_MOVE ≡ 63) × (LARGEST_TAG_STEP ≡ 15) }
    ensures heap { (FEWEST_GRANULES ≡ 64) × (MOST_GRANULES ≡ 262144) × (MOST_QUARANTINE ≡ 4194304) }
{}
