//! What is true of the devices that lines describe. Each function does nothing: what it ensures is
//! the law.

ghost use Rattle.std.specs.Prelude.{◌≡◌, ◌≢◌, ℕ, List, None, Some, slice_get};
ghost use Rattle.std.specs.List.{AllByRecursion};
ghost use Rattle.std.specs.Map.{lookup};
ghost use Rattle.std.specs.Option.{IsSome};
ghost use Rattle.bac_wire.specs.Stamp.{IsCivilTime};
ghost use Rattle.bac_objects.specs.Build.{IsCounted, build_fault, built, entry_of, id_of};
ghost use Rattle.bac_objects.specs.Misfit.{IsMisfit};
ghost use Rattle.bac_objects.specs.Sound.{IsSound};
ghost use Rattle.bac_objects.specs.State.{is_id};
ghost use Rattle.bac_objects.specs.declared.build.BuildFault.TheVariants.{DuplicateName, Memory};
ghost use Rattle.bac_objects.specs.declared.build.Misfit.{Misfit};
ghost use Rattle.bac_objects.specs.declared.lines.DeviceLine.{DeviceLine as FirstLine};
ghost use Rattle.bac_objects.specs.declared.lines.ObjectLine.{ObjectLine as LineOf};

/// The object of each line is found under its identifier.
pub fn objects_are_found()
    ensures { (device : FirstLine) (lines : List LineOf) (i : ℕ) (line : LineOf)
        → build_fault device lines ≡ None → slice_get lines i ≡ Some line
        → lookup (is_id (id_of line)) (built device lines).objects ≡ Some (entry_of line).1 }
{}

/// Lines without a fault describe a device that is sound, if its clock shows a civil time, and no
/// line says that more records were logged before than 64 bits can count.
pub fn built_devices_are_sound()
    ensures { (device : FirstLine) (lines : List LineOf) → build_fault device lines ≡ None
        → IsCivilTime device.clock → AllByRecursion IsCounted lines → IsSound (built device lines) }
{}

/// No fault of lines is that memory ran out.
pub fn lines_need_no_memory()
    ensures { (device : FirstLine) (lines : List LineOf) → build_fault device lines ≢ Some Memory }
{}

/// The fault of the line that is to mend is the first fault of all the lines.
pub fn misfits_have_the_first_fault()
    ensures { (device : FirstLine) (lines : List LineOf) (m : Misfit) → IsMisfit device lines m
        → build_fault device lines ≡ Some m.fault }
{}

/// If the fault of the line that is to mend is that a line before it has its name, that line is
/// told too.
pub fn duplicate_names_have_a_namesake()
    ensures { (device : FirstLine) (lines : List LineOf) (m : Misfit) → IsMisfit device lines m
        → m.fault ≡ DuplicateName → IsSome m.namesake }
{}
