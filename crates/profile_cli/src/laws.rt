// Laws of the definitions in specs/. Each function does nothing, and its contract is the law.
ghost use Rattle.std.specs.Prelude.{◌≡◌, ℕ, false, Some, List};
ghost use Rattle.certify_text.specs.Certified.{Certifies};
ghost use Rattle.clap.specs.Walk.{Text};
ghost use Rattle.cli_words.specs.Command.{command};
ghost use Rattle.cli_words.specs.declared.request.Request.{Request};
ghost use Rattle.cli_words.specs.declared.request.Request.TheVariants.{Certify, Normalize};
ghost use Rattle.normalize_text.specs.Joined.{AreLosslessTables};
ghost use Rattle.ports.specs.Files.{Files, bytes_of};
ghost use Rattle.profile_cli.specs.Contents.{file_content};
ghost use Rattle.profile_cli.specs.Output.{Output, output};
ghost use Rattle.profile_cli.specs.Task.{leaves_choice, task_of};
ghost use Rattle.rel_base.specs.RowState.{opened};
ghost use Rattle.rel_base.specs.declared.limits.Limits.{Limits};
ghost use Rattle.rel_base.specs.declared.nulls.Nulls.TheVariants.{Equal};
ghost use Rattle.task_base.specs.Task.{HasWorkers};

/// Words that are a command ask for 1 to 16 workers.
pub fn a_command_has_workers()
    ensures { (words : List Text) (request : Request) → command words ≡ Some request → HasWorkers (task_of request) }
{}

/// The files of each output of `normalize` hold projections of the rows of its file, each in Boyce-Codd normal form, whose natural join is the distinct rows.
pub fn normalize_writes_a_lossless_split()
    ensures { (words : List Text) (workers : ℕ) (prefix file : List ℕ) (limits : Limits) (files : Files) (input : List ℕ) (o : Output) → command words ≡ Some (Normalize workers prefix file)
        → output words limits files input o → o.status ≡ 0 → AreLosslessTables (opened Equal limits.rows (file_content (bytes_of files file))) o.written.files }
{}

/// What `certify` writes is the report of its file, and a certificate of its covers in the file of that name.
pub fn certify_writes_a_certificate()
    ensures { (words : List Text) (workers : ℕ) (name file : List ℕ) (limits : Limits) (files : Files) (input : List ℕ) (o : Output) → command words ≡ Some (Certify workers name file)
        → output words limits files input o → o.status ≡ 0 → Certifies name file (opened Equal limits.rows (file_content (bytes_of files file))) o.written }
{}

/// A run has one output alone: no command but `certify` leaves a choice of what is written.
pub fn a_run_has_one_output()
    ensures { (words : List Text) (limits : Limits) (files : Files) (input : List ℕ) (a b : Output) → leaves_choice (command words) ≡ false
        → output words limits files input a → output words limits files input b → a ≡ b }
{}

/// A run has one status and one text on its standard output alone.
pub fn a_run_has_one_standard_output()
    ensures { (words : List Text) (limits : Limits) (files : Files) (input : List ℕ) (a b : Output) → output words limits files input a → output words limits files input b
        → (a.status ≡ b.status) × (a.written.text ≡ b.written.text) }
{}
